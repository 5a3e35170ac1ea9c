//! Tables of plans and what `precopy-schedule` tells of them, worked by hand.

ghost use Rattle.std.specs.Prelude.{◌≡◌, false};

use byte_sinks::TestSink;
use move_schedules::start;
use std::alloc::Global;
use std::process::Abort;
use trace_codec::TestSource;

fn sink(alloc: Global) -> TestSink
    ensures { result.has_failed ≡ false }
{
    TestSink::new(Vec::new(alloc), usize::MAX, None, false)
}

/// What the program does with a word and a table: its status, output and faults.
fn answered(
    rt: &impl Abort,
    alloc: Global,
    word: Option<&str>,
    table: &[u8],
) -> (u8, TestSink, TestSink) {
    let name = "precopy-schedule".to_string(alloc).expect(rt, "memory");
    let mut words = vec![in alloc; name].expect(rt, "memory");
    if let Some(word) = word {
        let word = word.to_string(alloc).expect(rt, "memory");
        words.push(word).expect(rt, "memory");
    }
    let table = Vec::from_slice(alloc, table).expect(rt, "memory");
    let mut source = TestSource::new(table, 7, None);
    let mut output = sink(alloc);
    let mut faults = sink(alloc);
    let status = start(alloc, words, &mut source, &mut output, &mut faults);
    (status, output, faults)
}

/// What the program does with a table: its status, output and faults.
fn told(rt: &impl Abort, alloc: Global, table: &[u8]) -> (u8, TestSink, TestSink) {
    answered(rt, alloc, None, table)
}

/// Five moves in two slots take 7, in one slot 12; a deadline of 11 keeps the one, and the shorter is better. The last
/// plan has a guest whose limits are not kept.
#[test]
fn tells_of_each_plan_and_of_the_best(rt: HostRuntime) {
    let table = "1 11 3 30 1 1 0 3 30 1 1 0 2 20 4 1 0 2 20 1 1 0 2 20 1 1 0\n\
2 11 3 30 1 1 0 3 30 1 1 0 2 20 4 1 0 2 20 1 1 0 2 20 1 1 0\n\
2 0 3 30 1 0 0\n";
    let answer = "time 12 bytes 120 downtime 4 missed\n\
time 7 bytes 120 downtime 4 kept\n\
time 3 bytes 30 downtime 1 missed\n\
best 1\n\
start 0 end 3 slot 0\n\
start 0 end 3 slot 1\n\
start 3 end 5 slot 0\n\
start 3 end 5 slot 1\n\
start 5 end 7 slot 0\n";
    let (status, output, faults) = told(&rt, rt.alloc(), table.as_bytes());
    assert!(rt; status == 0 && faults.bytes().is_empty());
    assert!(rt; output.bytes() == answer.as_bytes());
}

/// Returns whether a table is refused with this fault.
fn fails(rt: &impl Abort, alloc: Global, table: &[u8], fault: &str) -> bool {
    let (status, output, faults) = told(rt, alloc, table);
    status == 1 && output.bytes().is_empty() && faults.bytes() == fault.as_bytes()
}

#[test]
fn names_the_line_that_is_no_plan(rt: HostRuntime) {
    const TABLES: [&str; 7] = [
        "1 0\n0 0\n",
        "1 0\n65537 0\n",
        "1 0\n1\n",
        "1 0\n1 0 2\n",
        "1 0\n1 0 2 3 4 5 x\n",
        "1 0\n1  0\n",
        "1 0\n\n",
    ];
    let fault =
        "precopy-schedule: line 2 is no plan: slots, a deadline, and five numbers for each guest\n";
    for table in TABLES {
        assert!(rt; fails(&rt, rt.alloc(), table.as_bytes(), fault), "{table}");
    }
}

#[test]
fn refuses_no_text_and_no_plans(rt: HostRuntime) {
    let no_text = "precopy-schedule: the table is no text\n";
    assert!(rt; fails(&rt, rt.alloc(), &[49, 32, 255], no_text));
    assert!(rt; fails(&rt, rt.alloc(), &[], "precopy-schedule: there is no plan\n"));
}

#[test]
fn tells_its_version(rt: HostRuntime) {
    let (status, output, faults) = answered(&rt, rt.alloc(), Some("--version"), &[]);
    assert!(rt; status == 0 && faults.bytes().is_empty());
    assert!(rt; output.bytes() == "precopy-schedule (precopy) 0.6.0\n".as_bytes());
}

#[test]
fn shows_help(rt: HostRuntime) {
    let (status, output, faults) = answered(&rt, rt.alloc(), Some("--help"), &[]);
    assert!(rt; status == 0 && !output.bytes().is_empty() && faults.bytes().is_empty());
}

#[test]
fn takes_no_other_word(rt: HostRuntime) {
    let (status, output, faults) = answered(&rt, rt.alloc(), Some("table"), "1 0\n".as_bytes());
    assert!(rt; status == 2 && output.bytes().is_empty());
    assert!(rt;
        faults
            .bytes()
            .starts_with(b"error: unexpected argument 'table' found\n")
    );
}
