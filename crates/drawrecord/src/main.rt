// Draws the packed records of the map file on standard input, and names its other sections.
#![tactic(auto)]

use drawing::record::Record;
use mapfile::{LONGEST, MapFile, Section};
use mirror::Mirror;
use refusal::{Refusal, numbered};
use std::io;
use std::io::Read;
use store::halves::{Cells, Places};

// One byte more than the longest map file, so that a longer input is seen to be one.
const MOST: u64 = LONGEST as u64 + 1;

// The most fields that a record can have.
const FIELDS: u32 = 64;

// What ends a drawing early: a refusal, or output that fails.
#[derive(Drop)]
enum Halt {
    Refused(Refusal),
    Failed(io::Error),
}

impl From<Refusal> for Halt {
    fn from(refusal: Refusal) -> Halt {
        Halt::Refused(refusal)
    }
}

impl From<io::Error> for Halt {
    fn from(error: io::Error) -> Halt {
        Halt::Failed(error)
    }
}

// Loops by address and by number, since printing may fail at each line.
fn draw(rt: &HostRuntime, record: Record) -> io::Result<()> {
    let store: Mirror = record.placed();
    for address in record.start()..record.end() {
        if let Some(row) = record.row(&store, address) {
            println!(rt; "{row}")?;
        }
    }
    for field in 0..FIELDS {
        if let Some(extent) = record.extent(field) {
            println!(rt; "field {field} {extent}")?;
        }
    }
    Ok(())
}

// Names a section, and draws it if it is a layout.
fn show(rt: &HostRuntime, i: u32, section: Section) -> Result<(), Halt> {
    let (name, body) = match section {
        Section::Layout(body) => ("layout", body),
        Section::Routine(body) => ("routine", body),
        Section::Claims(body) => ("claims", body),
    };
    let length = body.len();
    println!(rt; "section {i} {name} length {length}")?;
    if let Section::Layout(body) = section {
        draw(rt, Record::read(body)?)?;
    }
    Ok(())
}

fn show_all(rt: &HostRuntime, file: &[u8]) -> Result<(), Halt> {
    let file = MapFile::read(file)?;
    for i in 0..file.section_count() {
        if let Some(section) = file.section(i) {
            show(rt, i, section)?;
        }
    }
    Ok(())
}

fn run(rt: &HostRuntime) -> anyhow::Result<()> {
    let mut file = Vec::new(rt.alloc());
    rt.stdin().take(MOST).read_to_end(&mut file)?;
    match show_all(rt, file.as_slice()) {
        Ok(()) => {}
        Err(Halt::Refused(refusal)) => {
            let (number, place) = numbered(refusal);
            println!(rt; "refused {number} {place}")?;
        }
        Err(Halt::Failed(error)) => return Err(error.into()),
    }
    Ok(())
}

fn main(rt: HostRuntime) -> anyhow::Result<()> {
    run(&rt)
}
