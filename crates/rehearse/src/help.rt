// What a call text looks like, and what each mistake in one lacks.
use super::text::{STDOUT, Text};

// The help, up to the names.
const HELP: &str = "\
A call text says what both ends can do, and what the caller calls for:

    caller    data V.34 V.32bis V.22bis V.21, wants LAPM   # a comment
    answerer  data V.32bis V.22bis V.26ter
    call      data

An end has functions, each with its modulations behind it. The first is its home function, or the one
behind 'home'. Further lines may be there too: Te in milliseconds; the cadence of CI, in sequences on
and bit times off; when the answerer answers, in milliseconds; octets of the caller's own blocks, in hex
digits; and bits that arrive inverted, where bit n is sent n * 10 / 3 ms after the call began:

    Te        500
    cadence   5 450
    answers   4000
    blocks    05 B5 01 41 31 30
    damaged   caller 485 609

Where the caller is a stranger, its line gives CM as it is, in hex digits. CM says what is called for, so
there is no line 'call':

    caller    sends C1 45

";

// The help.
pub fn say() {
    io::write_all(STDOUT, HELP.as_bytes());
    Text::of("Lines:")
        .put_every(names::END)
        .put_every(names::LINE)
        .say();
    Text::of("Functions:").put_every(names::FUNCTION).say();
    Text::of("Modulations:")
        .put_every(names::MODE)
        .put_every(names::OTHER_MODE)
        .say();
    Text::of("Of an end:")
        .put_every(names::PART)
        .put_every(names::QUALITY)
        .say();
    Text::of("Wanted:").put_every(names::WANTED).say();
    Text::of("Told of an access group:")
        .put_every(names::ACCESS)
        .say();
}

// What may stand in the line of an end.
fn put_in_end(text: Text) -> Text {
    text.put_words("expected a function:")
        .put_every(names::FUNCTION)
        .put_words("; a modulation:")
        .put_every(names::MODE)
        .put_every(names::OTHER_MODE)
        .put_words("; or one of:")
        .put_every(names::PART)
        .put_every(names::QUALITY)
        .put_words("; behind wants:")
        .put_every(names::WANTED)
}

// A mistake, by its number: what the numbers are is laid down in plans.
pub fn put_mistake(text: Text, what: u8) -> Text {
    match what {
        plans::BEGIN => text
            .put_words("expected a line that begins with one of:")
            .put_every(names::END)
            .put_every(names::LINE),
        plans::IN_END => put_in_end(text),
        plans::AFTER_HOME => text
            .put_words("expected the home function, one of:")
            .put_every(names::FUNCTION),
        plans::AFTER_WANTS => text
            .put_words("expected what the end wants, one of:")
            .put_every(names::WANTED),
        plans::AFTER_CALL => text
            .put_words("expected the function of the call, one of:")
            .put_every(names::FUNCTION),
        plans::AFTER_DAMAGED => text
            .put_words("expected the end whose bits are damaged, one of:")
            .put_every(names::END),
        plans::MODE_FIRST => text
            .put_words("expected a function before the modulations that belong to it, one of:")
            .put_every(names::FUNCTION),
        plans::NO_FUNCTION => text
            .put_words("expected a function that the end has, one of:")
            .put_every(names::FUNCTION),
        _ => text.put_words(plain(what)),
    }
}

// A mistake that no names belong to.
fn plain(what: u8) -> &'static str {
    match what {
        plans::AFTER_TE => "expected Te in milliseconds, a number from 500 to 5000",
        plans::FIRST_BIT => "expected a damaged bit, a number from 0 to 8999",
        plans::BITS => "expected a damaged bit, a number from 0 to 8999",
        plans::DONE => "expected the end of the line",
        plans::TWICE => "this is said already",
        plans::HOME_NOT_HAD => "the home function is not among the functions of the end",
        plans::PCM_ALONE => "PCM-analogue and PCM-digital are offered beside V.34 alone",
        plans::NO_CALLER => "the text ends without a line 'caller'",
        plans::NO_ANSWERER => "the text ends without a line 'answerer'",
        plans::NO_CALL => "the text ends without a line 'call'",
        plans::CALL_NOT_HAD => "the caller has not the function of the call",
        plans::FIRST_OCTET => "expected an octet, two hex digits",
        plans::OCTETS => "expected an octet, two hex digits",
        plans::SENDS_ALONE => {
            "a CM that is sent as it is stands alone in the line of the caller, and no function is called"
        }
        plans::AFTER_CADENCE => {
            "expected how many CI sequences an on period has, a number from 3 to 20"
        }
        plans::AFTER_ON => {
            "expected how many bit times an off period has, a number from 120 to 600"
        }
        plans::AFTER_ANSWERS => {
            "expected when the answerer answers, in milliseconds, a number from 200 to 20000"
        }
        _ => "",
    }
}
