//! The searches over a centre's places, and the tick of all of them.
#![tactic(auto)]

ghost use Rattle.std.specs.Prelude.{◌≡◌, ◌&&◌, ◌+◌, ◌%◌, ◌≤◌, ◌<◌, cond, Some, None, ltb, leb};
ghost use Rattle.place.specs.Rules.{is_open};
ghost use Rattle.place.specs.Outcomes.{number_of};
ghost use Rattle.places.specs.Rows.{opening, reached, upward, swept as of_all};
ghost use Rattle.places.specs.Held.{stands_in, serial_in, Weighed, Marked, Gathered};

use place::{Outcome, Place, Reply};

/// The places of one centre: 0 to 7 are the first's, 8 to 15 the second's.
const SHARE: usize = 8;

/// The number after the last serial, for a place that is not open.
// A number and no Option: eight of them are compared at once.
const NONE: u32 = 65536;

/// What a tick tells of one place, by default nothing; no byte of it is padding.
#[repr(C)]
#[derive(Clone, Copy, Debug, Default, PartialEq, Eq, Hash)]
pub struct Report {
    pub outcome: u16,
    pub serial: u16,
}

/// Why nothing is found among a centre's places: the places break the rules, there is no such centre, or none of them is sought.
#[derive(Clone, Copy, Debug, PartialEq, Eq, Hash)]
pub enum Unfound {
    Broken,
    Outside,
    Nothing,
}

/// What a tick makes of the places, and what it tells of them.
#[derive(Clone, Copy, Debug, PartialEq, Eq, Hash)]
pub struct Swept {
    pub places: [Place; 16],
    pub reports: [Report; 16],
}

/// Whether a serial stands among those of its centre, each of which has left its mark: one without a mark is not looked for.
#[inline(always)]
#[tactic(auto, using(crate::proofs::Marks::unmarked))]
fn is_taken(marks: &[u8; 16], eight: &[u32], serial: u16) -> bool
    requires { Marked marks.now eight.now }
    ensures value { result ≡ stands_in eight.now serial }
    ensures serial_bound { serial < 65536 }
{
    marks[mark_of(serial)] != 0 && stands_in(eight, serial)
}

/// Whether a serial stands among the eight.
// No early way out, as `contains` has one, so that the compiler compares many at once.
#[inline(always)]
fn stands_in(eight: &[u32], serial: u16) -> bool
    ensures { result ≡ stands_in eight.now serial }
{
    let mut hit = false;
    for n in eight {
        if *n == u32::from(serial) {
            hit = true;
        }
    }
    hit
}

/// Where a serial leaves its mark; serials that follow each other leave theirs apart.
fn mark_of(serial: u16) -> usize
    ensures { result ≡ serial % 16 }
{
    usize::from(serial % 16)
}

/// Whether an exchange of these numbers is open and keeps the state's rules.
// Numbers and no place, which would be packed into a register and unpacked again.
#[inline(always)]
fn is_kept(mode: u16, made: u16, age: u16, timeout: u8, resends: u8) -> bool
    ensures { result ≡ is_open mode && (ltb age timeout && leb made resends) }
{
    place::is_open(mode) && age < u16::from(timeout) && made <= u16::from(resends)
}

/// Each place as one number, so that a pass tells the free ones by one test.
fn weigh(places: [Place; 16]) -> [u64; 16]
    ensures { Weighed places result }
{
    let mut weights = [0; 16];
    for i in 0..16 {
        weights[i] = places[i].weight();
    }
    weights
}

/// The serials of places that keep the rules, each at its own place, NONE where it is free; the pass goes centre by centre, so that the compiler writes
/// its turns out one by one.
// Both rows are lent: a row handed back is copied, and places handed on are taken apart into their 64 numbers.
#[inline(always)]
fn gather(
    places: &[Place; 16],
    timeout: u8,
    resends: u8,
    row: &mut [u32; 16],
) -> Result<(), Unfound>
    ensures { Gathered timeout resends places.now result row.new }
{
    let weights = weigh(*places);
    *row = [NONE; 16];
    for centre in (0..2).rev() {
        let low = centre * SHARE;
        let mut marks = [0; 16];
        for k in (low..low + SHARE).rev() {
            if weights[k] != 0 {
                let mode = places[k].mode;
                let serial = places[k].serial;
                if !is_kept(mode, places[k].resends, places[k].age, timeout, resends)
                    || is_taken(&marks, &row[low..low + SHARE], serial)
                {
                    return Err(Unfound::Broken);
                }
                marks[mark_of(serial)] = 1;
                row[k] = u32::from(serial);
            }
        }
    }
    Ok(())
}

/// The serial after another.
pub fn after(serial: u16) -> u16
    ensures { result ≡ upward serial 1 }
{
    serial.wrapping_add(1)
}

/// The first serial from the next one upward that does not stand among a centre's, of eight and the one after them.
fn serial_in(eight: &[u32], next: u16) -> u16
    ensures { result ≡ serial_in eight.now next }
{
    let mut serial = next;
    for _ in 0..SHARE {
        if !stands_in(eight, serial) {
            return serial;
        }
        serial = after(serial);
    }
    serial
}

/// A centre's lowest free place and the first serial that is not open within it, in places that keep the rules.
#[inline(always)]
pub fn find_opening(
    places: [Place; 16],
    centre: usize,
    timeout: u8,
    resends: u8,
    next: u16,
) -> Result<(usize, u16), Unfound>
    ensures { result ≡ opening timeout resends places centre next }
{
    let mut row = [NONE; 16];
    gather(&places, timeout, resends, &mut row)?;
    if 2 <= centre {
        return Err(Unfound::Outside);
    }
    let from = centre * SHARE;
    let full = from + SHARE;
    for place in from..full {
        if !place::is_open(places[place].mode) {
            return Ok((place, serial_in(&row[from..from + SHARE], next)));
        }
    }
    Err(Unfound::Nothing)
}

/// The place of a centre that a reply fits, in places that keep the rules, where no serial is open twice within a centre.
#[inline(always)]
pub fn find_fitting(
    places: [Place; 16],
    centre: usize,
    timeout: u8,
    resends: u8,
    serial: u16,
    reply: Reply,
) -> Result<(usize, u16), Unfound>
    ensures { result ≡ reached timeout resends places centre serial reply }
{
    let mut row = [NONE; 16];
    gather(&places, timeout, resends, &mut row)?;
    if 2 <= centre {
        return Err(Unfound::Outside);
    }
    let from = centre * SHARE;
    for place in from..from + SHARE {
        if row[place] == u32::from(serial) && place::awaits(places[place].mode, reply) {
            return Ok((place, serial));
        }
    }
    Err(Unfound::Nothing)
}

/// A tick of every place, by the same pass: a place of zeros stays as it is, and nothing is told of it.
#[inline(always)]
pub fn tick_all(places: [Place; 16], timeout: u8, resends: u8) -> Option<Swept>
    ensures { result ≡ of_all timeout resends places }
{
    let mut swept = Swept {
        places,
        reports: [Report::default(); 16],
    };
    if sweep(places, timeout, resends, &mut swept) {
        Some(swept)
    } else {
        None
    }
}

/// The same, into what it makes and tells of them, and whether the places keep the rules.
// The pass stands here once more: gathered first and ticked in a second pass, the places are gone over twice.
// What is swept is lent: an Option of it is copied on each way out.
// The serial is read behind the first test: beside the other three the compiler reads all four at once, which costs each open place more.
#[inline(always)]
fn sweep(places: [Place; 16], timeout: u8, resends: u8, swept: &mut Swept) -> bool
    ensures { of_all timeout resends places ≡ cond result (Some swept.new) None }
{
    let weights = weigh(places);
    let mut row = [NONE; 16];
    let reports = [Report::default(); 16];
    *swept = Swept { places, reports };
    for centre in (0..2).rev() {
        let low = centre * SHARE;
        let mut marks = [0; 16];
        for k in (low..low + SHARE).rev() {
            if weights[k] != 0 {
                let mode = places[k].mode;
                let made = places[k].resends;
                let age = places[k].age;
                if !is_kept(mode, made, age, timeout, resends) {
                    return false;
                }
                let serial = places[k].serial;
                if is_taken(&marks, &row[low..low + SHARE], serial) {
                    return false;
                }
                marks[mark_of(serial)] = 1;
                row[k] = u32::from(serial);
                if u32::from(age) + 1 < u32::from(timeout) {
                    swept.places[k] = Place {
                        serial,
                        mode,
                        resends: made,
                        age: age + 1,
                    };
                    swept.reports[k] = told(Outcome::Nothing, serial);
                } else {
                    let step = places[k].denied(resends);
                    swept.places[k] = step.place;
                    swept.reports[k] = told(step.outcome, serial);
                }
            }
        }
    }
    true
}

/// What is told of an exchange.
#[inline(always)]
fn told(outcome: Outcome, serial: u16) -> Report
    ensures { result ≡ record { outcome = number_of outcome; serial = serial } }
{
    Report {
        outcome: u16::from(outcome.number()),
        serial,
    }
}
