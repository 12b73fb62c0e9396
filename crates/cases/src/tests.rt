// The worked cases as bytes: what is written of them, and what is refused.
use judging::judge::judge;
use judging::working::JudgingRow;
use logs::event::Value;
use logs::image::ImageLog;
use logs::log::ReadingLog;
use reports::line::Line;
use reports::report::report;
use rules::limits::MOST_ROWS;
use rules::sheet::Sheet;
use std::alloc::Global;
use std::test::Fail;

// The kind of a row, its fields a and b, and its number.
type Raw = (u8, u8, u8, i32);

// The time and the name of an event, and its value, of code 7, if it has one.
type Noted = (u32, u8, Option<Value>);

const UNREAD: Option<Value> = Some(Value::Unread { code: 7 });

fn read(number: i32) -> Option<Value> {
    Some(Value::Read { code: 7, number })
}

fn sheet_bytes(heap: Global, rules: u8, rows: &[Raw]) -> Result<Vec<u8>, Fail> {
    let count = u8::try_from(rows.len())?;
    let mut bytes = vec![in heap; rules, 0, count, 0]?;
    for row in rows {
        bytes.extend_from_slice(&[row.0, row.1, row.2, 0])?;
    }
    for row in rows {
        bytes.extend_from_slice(&row.3.to_le_bytes())?;
    }
    Ok(bytes)
}

fn slot(value: Option<Value>) -> [u8; 6] {
    match value {
        None => [0; 6],
        Some(Value::Unread { code }) => [code, 0, 0, 0, 0, 0],
        Some(Value::Read { code, number }) => {
            let [a, b, c, d] = number.to_le_bytes();
            [code, 1, a, b, c, d]
        }
    }
}

fn image_bytes(heap: Global, events: &[Noted]) -> Result<Vec<u8>, Fail> {
    let count = u8::try_from(events.len())?;
    let mut bytes = vec![in heap; count, 0, 28, 0]?;
    for event in events {
        bytes.extend_from_slice(&event.0.to_le_bytes())?;
    }
    for event in events {
        let used = u8::from(event.2.is_some());
        bytes.extend_from_slice(&[event.1, used, 0, 0])?;
        bytes.extend_from_slice(&slot(event.2))?;
        bytes.extend_from_slice(&[0; 18])?;
    }
    Ok(bytes)
}

// The log of which place 2 has this value.
fn log_with(value: Option<Value>) -> [Noted; 4] {
    [(0, 1, None), (5, 2, read(3)), (9, 2, value), (12, 3, None)]
}

// So many events of name 2 whose value 7 equals 3.
fn occurs_three(times: i32) -> [Raw; 4] {
    [
        (5, 2, 0, times),
        (24, 0, 0, 0),
        (32, 0, 7, 0),
        (30, 0, 0, 3),
    ]
}

// After each 2, a 3.
fn followed() -> [Raw; 4] {
    [(7, 2, 3, 0), (20, 0, 0, 0), (5, 3, 0, 1), (20, 0, 0, 0)]
}

// After the last 2 whose value 7 equals 3, no 2.
fn last_three() -> [Raw; 6] {
    [
        (7, 2, 2, 0),
        (24, 0, 0, 0),
        (32, 0, 7, 0),
        (30, 0, 0, 3),
        (6, 2, 0, 0),
        (20, 0, 0, 0),
    ]
}

// After the first 1, two of name 2 within the duration.
fn two_within(duration: i32) -> [Raw; 4] {
    [
        (7, 1, 1, duration),
        (20, 0, 0, 0),
        (5, 2, 0, 2),
        (20, 0, 0, 0),
    ]
}

// x / y equals z, asked at the events of name 1.
fn divides(x: i32, y: i32, z: i32) -> [Raw; 6] {
    [
        (5, 1, 0, 1),
        (24, 0, 0, 0),
        (37, 0, 0, 0),
        (30, 0, 0, x),
        (30, 0, 0, y),
        (30, 0, 0, z),
    ]
}

// What is written of an input: its first line.
fn told(heap: Global, bytes: &[u8]) -> Result<String, Fail> {
    let mut work = [JudgingRow::Negation; MOST_ROWS];
    match report(bytes, &mut work) {
        Ok(verdicts) => {
            let verdict = verdicts.get(0).ok_or("no rule")?;
            Ok(Line { rule: 0, verdict }.to_string(heap)?)
        }
        Err(refusal) => Ok(refusal.to_string(heap)?),
    }
}

// Fails if another line is said than this.
fn same(said: &str, line: &str) -> Result<(), &'static str> {
    if said == line {
        Ok(())
    } else {
        Err("another line")
    }
}

// A sheet with one rule over a log.
fn over(heap: Global, rows: &[Raw], events: &[Noted], line: &str) -> Result<(), Fail> {
    let mut bytes = sheet_bytes(heap, 1, rows)?;
    let image = image_bytes(heap, events)?;
    bytes.extend_from_slice(image.as_slice())?;
    same(told(heap, bytes.as_slice())?.as_str(), line)?;
    Ok(())
}

#[test]
fn occurrences(rt: HostRuntime) -> Result<(), Fail> {
    let heap = rt.alloc();
    over(heap, &occurs_three(1), &log_with(UNREAD), "0 holds")?;
    over(heap, &occurs_three(2), &log_with(UNREAD), "0 open 2 2 3")?;
    over(heap, &occurs_three(2), &log_with(read(3)), "0 holds")?;
    over(heap, &occurs_three(2), &log_with(read(4)), "0 fails")?;
    over(heap, &occurs_three(0), &[], "0 holds")?;
    over(heap, &occurs_three(1), &[], "0 fails")
}

#[test]
fn scopes(rt: HostRuntime) -> Result<(), Fail> {
    let heap = rt.alloc();
    let unread = log_with(UNREAD);
    over(heap, &followed(), &unread, "0 holds")?;
    over(heap, &followed(), &[], "0 holds")?;
    over(heap, &last_three(), &unread, "0 open 2 2 3")?;
    over(heap, &last_three(), &log_with(read(3)), "0 holds")?;
    over(heap, &last_three(), &log_with(read(4)), "0 fails")?;
    over(heap, &two_within(9), &unread, "0 fails")?;
    over(heap, &two_within(10), &unread, "0 holds")?;
    let none_before = [(8, 3, 1, 0), (20, 0, 0, 0), (6, 1, 0, 0), (20, 0, 0, 0)];
    over(heap, &none_before, &unread, "0 fails")
}

#[test]
fn quotients(rt: HostRuntime) -> Result<(), Fail> {
    let heap = rt.alloc();
    let log = log_with(UNREAD);
    over(heap, &divides(-7, 2, -3), &log, "0 holds")?;
    over(heap, &divides(-7, 2, -4), &log, "0 fails")?;
    over(heap, &divides(i32::MIN, -1, 0), &log, "0 open 2 0 4")?;
    over(heap, &divides(5, 0, 0), &log, "0 open 2 0 5")
}

#[test]
fn refused_sheets(rt: HostRuntime) -> Result<(), Fail> {
    let heap = rt.alloc();
    let log = log_with(UNREAD);
    let rule = occurs_three(1);
    let mut short = sheet_bytes(heap, 1, &rule)?;
    let _ = short.pop();
    assert_eq!(rt; told(heap, short.as_slice())?.as_str(), "refused 6 0");
    over(heap, &rule[..3], &log, "refused 6 3")?;
    over(
        heap,
        &[(6, 2, 0, 0), (20, 0, 0, 0), (20, 0, 0, 0)],
        &log,
        "refused 6 2",
    )?;
    over(
        heap,
        &[(6, 2, 0, 0), (24, 0, 0, 0), (32, 1, 7, 0), (30, 0, 0, 3)],
        &log,
        "refused 6 2",
    )
}

#[test]
fn refused_images(rt: HostRuntime) -> Result<(), Fail> {
    let heap = rt.alloc();
    let rule = occurs_three(1);
    let mut log = log_with(UNREAD);
    log[2].0 = 4;
    log[3].0 = 3;
    over(heap, &rule, &log, "refused 12 2")?;
    let mut bytes = sheet_bytes(heap, 1, &rule)?;
    bytes.extend_from_slice(&[0, 0, 27, 0])?;
    assert_eq!(rt; told(heap, bytes.as_slice())?.as_str(), "refused 12 65535");
    Ok(())
}

// The number of the refusal, if a judging is refused.
fn refusal(sheet: &Sheet, log: &ImageLog, rule: usize, work: &mut [JudgingRow]) -> Option<u8> {
    judge(log, sheet, rule, work).err().map(u8::from)
}

#[test]
fn refused_judgings(rt: HostRuntime) -> Result<(), Fail> {
    let heap = rt.alloc();
    let image = image_bytes(heap, &log_with(UNREAD))?;
    let log = ImageLog::new(image.as_slice());
    let mut sheet = Sheet::new();
    let rows = [
        (7, 2, 3, 0),
        (20, 0, 0, 0),
        (5, 3, 0, 1),
        (20, 0, 0, 0),
        (6, 2, 0, 0),
        (20, 0, 0, 0),
    ];
    let bytes = sheet_bytes(heap, 2, &rows)?;
    assert!(rt; sheet.inspect(bytes.as_slice()).is_ok());
    let row = JudgingRow::Negation;
    assert_eq!(rt; refusal(&sheet, &log, 0, &mut [row; 2]), None);
    assert_eq!(rt; refusal(&sheet, &log, 0, &mut [row]), Some(11));
    assert_eq!(rt; refusal(&sheet, &log, 1, &mut [row]), None);
    assert_eq!(rt; refusal(&sheet, &log, 2, &mut [row; 2]), Some(7));
    Ok(())
}
