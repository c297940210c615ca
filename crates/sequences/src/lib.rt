// Bits on the line: sequences, copies of them, and CJ, written into a lent buffer of bytes that are 0 or 1.
#![tactic(auto)]

ghost use Rattle.std.specs.Prelude.{◌≡◌, ◌+◌, ◌*◌, ◌<◌, ◌≤◌, length, get_or};
ghost use Rattle.laws.specs.Front.{front};
ghost use Rattle.refusals.specs.Lent.{Meets};
ghost use Rattle.sequences.specs.Line.{framed_all, sequence, copies};
ghost use Rattle.sequences.specs.Writing.{written, written_cj};
ghost use Rattle.sequences.specs.Inner.{spreads, ten_bits, sync_ten, octet_ten, Grouped};

use octets::{Kind, Purpose};
use refusals::Refusal;

// Four bits, a byte for each, the lowest first: 64 bytes of constants, with which the writer stores four bits at a time.
const SPREAD: [u32; 16] = [
    0x0000_0000,
    0x0000_0001,
    0x0000_0100,
    0x0000_0101,
    0x0001_0000,
    0x0001_0001,
    0x0001_0100,
    0x0001_0101,
    0x0100_0000,
    0x0100_0001,
    0x0100_0100,
    0x0100_0101,
    0x0101_0000,
    0x0101_0001,
    0x0101_0100,
    0x0101_0101,
];

// Ten bits of the line as one number, the first lowest: ten 1s, the syncs, and an octet's stop bit.
const TEN_ONES: u16 = 1023;

const CI_SYNC: u16 = 512;

const MENU_SYNC: u16 = 960;

const STOP_BIT: u16 = 512;

// How many bits: ten 1s or a sync, both of them, an octet in its frame, and CJ.
const TEN: usize = 10;

const PREAMBLE: usize = 20;

const FRAME: usize = 10;

const CJ_BITS: usize = 30;

fn four(n: u16, spread: &[u32; 16]) -> u32
    requires n_bound { n < 16 }
    requires spread_value { spread.now ≡ spreads }
    ensures { result ≡ get_or spreads n 0 }
{
    spread[n as usize]
}

// Ten bits, the lowest first.
fn write_ten(out: &mut [u8], v: u16, spread: &[u32; 16])
    requires in_bounds { 10 ≤ length out.old }
    requires v_bound { v < 1024 }
    requires spread_value { spread.now ≡ spreads }
    ensures { out.new ≡ front (ten_bits v) out.old }
{
    let low = four(v % 16, spread);
    let high = four(v / 16 % 16, spread);
    out[0] = (low % 256) as u8;
    out[1] = (low / 256 % 256) as u8;
    out[2] = (low / 65536 % 256) as u8;
    out[3] = (low / 16777216 % 256) as u8;
    out[4] = (high % 256) as u8;
    out[5] = (high / 256 % 256) as u8;
    out[6] = (high / 65536 % 256) as u8;
    out[7] = (high / 16777216 % 256) as u8;
    out[8] = (v / 256 % 2) as u8;
    out[9] = (v / 512 % 2) as u8;
}

fn octet_ten(b: u8) -> u16
    ensures { result ≡ octet_ten b }
{
    STOP_BIT + 2 * b as u16
}

fn sync_ten(kind: Kind) -> u16
    ensures { result ≡ sync_ten kind }
{
    match kind {
        Kind::Ci => CI_SYNC,
        Kind::Menu => MENU_SYNC,
    }
}

// The group at the front of the octets: its category octet with the extension octets behind it. Answers how many octets that is.
fn write_group(out: &mut [u8], octets: &[u8], spread: &[u32; 16]) -> usize
    requires octets_nonzero { 0 < length octets.now }
    requires octets_len_bound { length octets.now ≤ 64 }
    requires octets_in_bounds { 10 * length octets.now ≤ length out.old }
    requires spread_value { spread.now ≡ spreads }
    ensures { Grouped octets.now out.old result out.new }
{
    // no `for`: where the group ends is found while it is written, and a second pass would look for it
    let mut i: usize = 0;
    loop {
        let at = FRAME * i;
        write_ten(&mut out[at..], octet_ten(octets[i]), spread);
        i += 1;
        if octets::group_ends(octets, i) {
            return i;
        }
    }
}

// All octets, group by group, each into what is left behind the group before it.
fn write_groups(out: &mut [u8], octets: &[u8], spread: &[u32; 16])
    requires octets_len_bound { length octets.now ≤ 64 }
    requires octets_in_bounds { 10 * length octets.now ≤ length out.old }
    requires spread_value { spread.now ≡ spreads }
    ensures { out.new ≡ front (framed_all octets.now) out.old }
{
    // no `for`: the writer of a group says how many octets it had
    let mut i: usize = 0;
    while i < octets.len() {
        let at = FRAME * i;
        i += write_group(&mut out[at..], &octets[i..], spread);
    }
}

// Ten 1s, ten sync bits, the octets.
fn write_sequence(out: &mut [u8], kind: Kind, octets: &[u8], spread: &[u32; 16])
    requires octets_len_bound { length octets.now ≤ 64 }
    requires octets_in_bounds { 20 + 10 * length octets.now ≤ length out.old }
    requires spread_value { spread.now ≡ spreads }
    ensures { out.new ≡ front (sequence kind octets.now) out.old }
{
    write_ten(out, TEN_ONES, spread);
    write_ten(&mut out[TEN..], sync_ten(kind), spread);
    write_groups(&mut out[PREAMBLE..], octets, spread);
}

// The sequence n times, each copy where the last one ended.
fn write_copies(out: &mut [u8], kind: Kind, octets: &[u8], n: u16, spread: &[u32; 16])
    requires octets_len_bound { length octets.now ≤ 64 }
    requires octets_in_bounds { length (copies n (sequence kind octets.now)) ≤ length out.old }
    requires spread_value { spread.now ≡ spreads }
    ensures { out.new ≡ front (copies n (sequence kind octets.now)) out.old }
{
    let size = PREAMBLE + FRAME * octets.len();
    let mut at: usize = 0;
    for _ in 0..n {
        write_sequence(&mut out[at..], kind, octets, spread);
        at += size;
    }
}

// Writes the copies of a CI or a menu from the buffer's start, and answers how many bits that is.
pub fn write(kind: Kind, octets: &[u8], n: u16, out: &mut [u8]) -> Result<usize, Refusal>
    ensures { Meets (written kind octets.now n out.old) result out.new }
{
    octets::test(Purpose::Writing(kind), octets)?;
    let size = n as usize * (PREAMBLE + FRAME * octets.len());
    if out.len() < size {
        return Err(Refusal::ShortBuffer);
    }
    write_copies(out, kind, octets, n, &SPREAD);
    Ok(size)
}

// Writes CJ once, from the buffer's start.
pub fn write_cj(out: &mut [u8]) -> Result<usize, Refusal>
    ensures { Meets (written_cj out.old) result out.new }
{
    if out.len() < CJ_BITS {
        return Err(Refusal::ShortBuffer);
    }
    write_groups(out, &[0u8; 3], &SPREAD);
    Ok(CJ_BITS)
}
