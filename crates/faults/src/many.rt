//! Tours of thousands of Plays, with numbers from 1 on.
ghost use Rattle.std.specs.Prelude.{◌≤◌};

use crate::given::LATER;
use crate::reader::read_listed;
use crate::told::{case, first};
use crate::writer::write_listed;
use std::io;

// ---- files

/// The file of n Plays, and behind it zeros. That of 4,097 fills it.
fn plays(n: u16) -> [u8; 81950]
    requires { n ≤ 4097 }
{
    let mut file = [0; 81950];
    file[..5].copy_from_slice(&[1, 2, 0, 1, 0]);
    for i in 0..n {
        let at = 5 + usize::from(i) * 20;
        let [low, high] = (i + 1).to_le_bytes();
        file[at..at + 20].copy_from_slice(&[
            2, 17, 0, 0, 0, 0, 0, 0, 0, 0, 0, low, high, 0, 0, 0, 0, 0, 0, 1,
        ]);
    }
    let at = 5 + usize::from(n) * 20;
    let [low, high] = n.to_le_bytes();
    file[at..at + 5].copy_from_slice(&[3, 2, 0, low, high]);
    file
}

/// Reads a file into a list for 4,096 records.
fn read(rt: &impl Print, what: &str, file: &[u8]) -> io::Result<()> {
    let mut list = [0; 20480];
    case(rt, what, read_listed(file, &mut list))
}

/// 'More than 4,096.'
pub fn one_too_many(rt: &impl Print) -> io::Result<()> {
    let file = plays(4097);
    read(rt, "version, 4,097 Plays, count 4,097", &file)
}

/// The 4,097th stands at 81,925. One of 18 bytes has the byte at which the count stood.
fn longer(rt: &impl Print) -> io::Result<()> {
    let mut file = plays(4097);
    read(
        rt,
        "version, 4,097 Plays, the last without its last byte (102, 110)",
        first(&file, 81944),
    )?;
    file[81926] = 18;
    read(
        rt,
        "version, 4,097 Plays, the last of 18 bytes (105, 110)",
        first(&file, 81946),
    )?;
    file[81944] = 9;
    file[81945] = 2;
    read(
        rt,
        "version, 4,096 Plays, Swap 4,097 to clip 2 (108, 110)",
        first(&file, 81946),
    )
}

/// Its kind, its number, and the tag behind it.
fn beside(rt: &impl Print) -> io::Result<()> {
    let mut file = plays(4097);
    file[81944] = 11;
    read(
        rt,
        "version, 4,096 Plays, kind 11, count 4,097 (107, 110)",
        &file,
    )?;
    file[81944] = 1;
    file[81936] = 0;
    read(
        rt,
        "version, 4,096 Plays, Play 4,096, count 4,097 (109, 110)",
        &file,
    )?;
    file[81936] = 1;
    file[81945] = 9;
    read(
        rt,
        "version, 4,097 Plays, tag 9 of 2 bytes (110 at 81925, 104 at 81945)",
        &file,
    )
}

pub fn read_all(rt: &impl Print) -> io::Result<()> {
    println!(rt; "the reader, 4,096 and one more")?;
    let file = plays(4096);
    read(rt, "version, 4,096 Plays, count 4,096", first(&file, 81930))?;
    one_too_many(rt)?;
    longer(rt)?;
    beside(rt)
}

// ---- records

/// The list of 5,000 Plays.
fn records() -> [u64; 25000] {
    let mut list = [0; 25000];
    for i in 0..5000usize {
        let number = i as u64 + 1;
        list[i * 5..i * 5 + 5].copy_from_slice(&[0, number, 1, 0, 0]);
    }
    list
}

/// Writes records to an output that 4,096 Plays fill.
fn write(rt: &impl Print, what: &str, records: &[u64]) -> io::Result<()> {
    let mut out = [0; 81930];
    case(rt, what, write_listed(records, &mut out))
}

/// 'Then more than 4,096.'
pub fn one_too_many_written(rt: &impl Print) -> io::Result<()> {
    let list = records();
    write(rt, "4,097 Plays", first(&list, 20485))
}

/// 'Output too short' comes after it.
fn outputs(rt: &impl Print) -> io::Result<()> {
    let list = records();
    let mut none = [0; 0];
    let mut short = [0; 81929];
    case(
        rt,
        "4,096 Plays, to an output of 81,929 bytes",
        write_listed(first(&list, 20480), &mut short),
    )?;
    case(
        rt,
        "4,097 Plays, no output (110, 115)",
        write_listed(first(&list, 20485), &mut none),
    )
}

/// Every record comes before it: the last of 5,000 is altered, whose words stand from 24,995 on.
fn last_records(rt: &impl Print) -> io::Result<()> {
    let mut list = records();
    write(rt, "5,000 Plays", &list)?;
    list[24996] = 4999;
    write(
        rt,
        "5,000 Plays, the last with number 4,999 (109, 110)",
        &list,
    )?;
    list[24996] = 5000;
    list[24997] = 9;
    list[24998] = LATER;
    write(
        rt,
        "4,999 Plays, Swap 5,000 to slot 3 serial 8 (108, 110)",
        &list,
    )?;
    list[24997] = 0;
    write(rt, "4,999 Plays, kind 0 (114, 110)", &list)
}

pub fn write_all(rt: &impl Print) -> io::Result<()> {
    println!(rt; "the writer, 4,096 and more")?;
    let list = records();
    write(rt, "4,096 Plays", first(&list, 20480))?;
    one_too_many_written(rt)?;
    outputs(rt)?;
    last_records(rt)
}
