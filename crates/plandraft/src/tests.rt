use crate::answered;
use script::script::parse;
use std::alloc::Global;
use std::test::Fail;

// What a script prints, or why it is no script.
fn told(heap: Global, text: &str) -> Result<String, Fail> {
    match parse(heap, text.as_bytes()) {
        Ok(script) => Ok(answered(heap, &script)?),
        Err(error) => Ok(error.to_string(heap)?),
    }
}

// Each script with what it prints.
const SCRIPTS: [(&str, &str); 10] = [
    (
        "open\n\r\n  # keep\n\tticket keep\nrows rows",
        "line 4: expected a number after 'ticket'",
    ),
    (
        "mark 1\nmark 2",
        "line 2: expected 'mark' only once, before the first call",
    ),
    ("rows rows\n", "line 1: expected the end of the line"),
    ("actor 3", "line 1: expected 'times'"),
    ("cut 3", "line 1: expected 'actor' or 'channel' after 'cut'"),
    ("retune 1 times 3", "line 1: expected a call"),
    ("mark 4294967296", "line 1: expected a number after 'mark'"),
    ("mark 4294967295\nopen\nticket 04294967295 keep", "ok\nok\n"),
    (
        "open\nactor times pin 1\nchannel 0 1 writes reads",
        "ok\nrefused 4 at 0\nrefused 8 at 0\n",
    ),
    (
        "open\nopen\nticket 1 keep\ncut actor 0\ncut channel 0\nkeep\nkeep",
        "ok\nrefused 1 at 0\nrefused 2 at 0\nrefused 8 at 0\nrefused 13 at 0\nok\nrefused 2 at 0\n",
    ),
];

#[test]
fn scripts_print_their_answers(rt: HostRuntime) -> Result<(), Fail> {
    for (script, printed) in SCRIPTS {
        let text = told(rt.alloc(), script)?;
        assert_eq!(rt; text.as_str(), printed);
    }
    Ok(())
}

#[test]
fn rows_can_be_fed_back(rt: HostRuntime) -> Result<(), Fail> {
    let rows =
        "actor times 3 1 1 not-before 5 pin 2\nactor times 4\nchannel 0 1 writes 1 0 0 reads 1 ceiling 7\n";
    let script = format!(in rt.alloc(); "open\n{rows}rows")?;
    let text = told(rt.alloc(), script.as_str())?;
    let printed = format!(in rt.alloc(); "ok\nactor 0\nactor 1\nchannel 0\n{rows}")?;
    assert_eq!(rt; text.as_str(), printed.as_str());
    Ok(())
}
