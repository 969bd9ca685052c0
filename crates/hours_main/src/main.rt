// Runs a stored list of steps on the windows of a station, by value and over a row of 67 words, and prints what both answer,
// behind one another: every boundary of a minute and of a window, windows over the week's end, 32 windows and one more, and
// values that no call makes.
#![tactic(auto)]

use hours::{Hours, HoursRefusal};
use std::io;

// What is done next: no window; a window is added, 32 times where it is `Fill`; a minute is asked for; or what no call writes is
// written, the count and the first pair of minutes.
#[derive(Clone, Copy)]
enum Step {
    New,
    Add(u32, u32),
    Fill(u32, u32),
    Open(u32),
    Wait(u32),
    Forge(u32, u32, u32),
}

const STEPS: [Step; 160] = [
    Step::New,
    Step::Open(0),
    Step::Open(10079),
    Step::Open(10080),
    Step::Open(4294967295),
    Step::Wait(0),
    Step::Wait(10079),
    Step::Wait(10080),
    Step::Wait(4294967295),
    Step::Add(0, 10080),
    Step::Add(10080, 0),
    Step::Add(10080, 10080),
    Step::Add(4294967295, 4294967295),
    Step::Add(5, 5),
    Step::Add(0, 0),
    Step::Add(10079, 10079),
    Step::New,
    Step::Add(3, 4),
    Step::Open(2),
    Step::Open(3),
    Step::Open(4),
    Step::Wait(0),
    Step::Wait(2),
    Step::Wait(3),
    Step::Wait(4),
    Step::Wait(5),
    Step::Wait(10079),
    Step::New,
    Step::Add(5000, 0),
    Step::Open(4999),
    Step::Open(5000),
    Step::Open(10079),
    Step::Open(0),
    Step::Open(1),
    Step::Wait(0),
    Step::Wait(1),
    Step::Wait(4999),
    Step::Wait(5000),
    Step::Wait(10079),
    Step::New,
    Step::Add(10000, 100),
    Step::Open(9999),
    Step::Open(10000),
    Step::Open(10079),
    Step::Open(0),
    Step::Open(99),
    Step::Open(100),
    Step::Wait(100),
    Step::Wait(9999),
    Step::Wait(10000),
    Step::Wait(0),
    Step::Wait(99),
    Step::New,
    Step::Add(10079, 0),
    Step::Open(10078),
    Step::Open(10079),
    Step::Open(0),
    Step::Wait(0),
    Step::Wait(10078),
    Step::Wait(10079),
    Step::New,
    Step::Add(10079, 1),
    Step::Open(10078),
    Step::Open(10079),
    Step::Open(0),
    Step::Open(1),
    Step::Wait(1),
    Step::Wait(10078),
    Step::New,
    Step::Add(0, 1),
    Step::Add(1, 0),
    Step::Open(0),
    Step::Open(1),
    Step::Open(10079),
    Step::Wait(0),
    Step::Wait(5000),
    Step::Wait(10079),
    Step::New,
    Step::Add(0, 10079),
    Step::Open(0),
    Step::Open(10078),
    Step::Open(10079),
    Step::Wait(10078),
    Step::Wait(10079),
    Step::New,
    Step::Add(9000, 9010),
    Step::Add(20, 30),
    Step::Add(25, 40),
    Step::Add(20, 30),
    Step::Open(19),
    Step::Open(20),
    Step::Open(29),
    Step::Open(30),
    Step::Open(39),
    Step::Open(40),
    Step::Open(9000),
    Step::Open(9009),
    Step::Open(9010),
    Step::Wait(0),
    Step::Wait(19),
    Step::Wait(30),
    Step::Wait(39),
    Step::Wait(40),
    Step::Wait(8999),
    Step::Wait(9010),
    Step::Wait(10079),
    Step::New,
    Step::Fill(0, 1),
    Step::Add(2, 3),
    Step::Add(5, 5),
    Step::Add(10080, 0),
    Step::Open(0),
    Step::Open(1),
    Step::Open(2),
    Step::Wait(1),
    Step::New,
    Step::Add(1, 2),
    Step::Forge(0, 7, 9),
    Step::Open(1),
    Step::Open(7),
    Step::Wait(7),
    Step::Add(4, 6),
    Step::Open(4),
    Step::Open(5),
    Step::Open(7),
    Step::New,
    Step::Forge(4294967295, 5, 5),
    Step::Open(0),
    Step::Open(5),
    Step::Wait(5),
    Step::Add(1, 2),
    Step::New,
    Step::Forge(1, 20000, 30000),
    Step::Open(0),
    Step::Open(5),
    Step::Wait(5),
    Step::Add(1, 2),
    Step::Open(1),
    Step::Wait(2),
    Step::New,
    Step::Forge(40, 3, 4),
    Step::Open(3),
    Step::Open(4),
    Step::Wait(4),
    Step::Add(1, 2),
    Step::Add(1, 1),
    Step::New,
    Step::Forge(33, 10080, 1),
    Step::Open(0),
    Step::Wait(0),
    Step::Forge(32, 1, 10080),
    Step::Open(1),
    Step::Wait(1),
    Step::Forge(31, 6, 8),
    Step::Add(9, 10),
    Step::Open(6),
    Step::Open(9),
    Step::Wait(8),
    Step::Wait(10),
    Step::Add(9, 10),
];

// The words of a row, and two behind them that stay as they are.
const ROW: usize = 67;

// The windows, twice.
#[derive(Clone, Copy)]
struct Station {
    hours: Hours,
    row: [u32; ROW],
}

// A station without windows.
fn none() -> Station {
    let mut row = [0; ROW];
    row[65] = 7;
    row[66] = 8;
    Station {
        hours: Hours::new(),
        row,
    }
}

// A window added to both, with what both answer.
fn add(rt: &impl Print, station: Station, opening: u32, closing: u32) -> io::Result<Station> {
    let mut next = station;
    let added = next.hours.add(opening, closing);
    next.hours = added.hours;
    let number = hours::row::pevzoncs_hours_add(&mut next.row, opening, closing);
    let name = match added.answer {
        Ok(()) => "taken",
        Err(HoursRefusal::OutOfRange) => "refused",
        Err(HoursRefusal::EmptyWindow) => "empty",
    };
    println!(rt; "add {opening} {closing}: {name} {number}")?;
    Ok(next)
}

// A window added to both 32 times.
fn fill(rt: &impl Print, station: Station, opening: u32, closing: u32) -> io::Result<Station> {
    let mut next = station;
    for _ in 0..32 {
        next = add(rt, next, opening, closing)?;
    }
    Ok(next)
}

// Whether a minute is open.
fn open(rt: &impl Print, station: Station, minute: u32) -> io::Result<()> {
    let name = match station.hours.is_open(minute) {
        Ok(true) => "open",
        Ok(false) => "closed",
        Err(_) => "refused",
    };
    let number = hours::row::pevzoncs_hours_open(&station.row, minute);
    println!(rt; "open {minute}: {name} {number}")
}

// The shortest wait, and the answer's two words.
fn wait(rt: &impl Print, station: Station, minute: u32) -> io::Result<()> {
    let mut answer = [0, 9];
    let number = hours::row::pevzoncs_hours_wait(&station.row, minute, &mut answer);
    let [first, second] = answer;
    match station.hours.wait(minute) {
        Ok(Some(minutes)) => println!(rt; "wait {minute}: {minutes} {number} {first} {second}"),
        Ok(None) => println!(rt; "wait {minute}: never {number} {first} {second}"),
        Err(_) => println!(rt; "wait {minute}: refused {number} {first} {second}"),
    }
}

// The count and the first pair written over, in both.
fn forge(
    rt: &impl Print,
    station: Station,
    count: u32,
    opening: u32,
    closing: u32,
) -> io::Result<Station> {
    let mut next = station;
    next.hours.count = count;
    next.hours.opens[0] = opening;
    next.hours.closes[0] = closing;
    next.row[0] = count;
    next.row[1] = opening;
    next.row[33] = closing;
    println!(rt; "forge {count} {opening} {closing}")?;
    Ok(next)
}

// Whether the row has the words of the value, and those behind them are as they were.
fn same(station: Station) -> bool {
    let Station { hours, row } = station;
    row[0] == hours.count
        && &row[1..33] == &hours.opens[..]
        && &row[33..65] == &hours.closes[..]
        && &row[65..] == &[7, 8][..]
}

fn main(rt: HostRuntime) -> io::Result<()> {
    let mut station = none();
    for step in STEPS {
        match step {
            Step::New => {
                station = none();
                println!(&rt; "new")?;
            }
            Step::Add(opening, closing) => station = add(&rt, station, opening, closing)?,
            Step::Fill(opening, closing) => station = fill(&rt, station, opening, closing)?,
            Step::Open(minute) => open(&rt, station, minute)?,
            Step::Wait(minute) => wait(&rt, station, minute)?,
            Step::Forge(count, opening, closing) => station = forge(
                &rt, station, count, opening, closing,
            )?,
        }
        if !same(station) {
            println!(&rt; "the row has other words")?;
        }
    }
    Ok(())
}
