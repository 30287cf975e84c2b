//! Command lines: those of the three forms, and others.
use std::alloc::{AllocError, Global};
use vme_engines::{WordsFault, read_words};

/// Command lines, each with the `Debug` text of its form, or of the fault if it has none.
static LINES: &str = "\
vme cycles|Ok(Cycles)
vme cycles --|Ok(Cycles)
./vme cycles|Ok(Cycles)
vme step a.toml|Ok(Step(\"a.toml\"))
vme step -- a.toml|Ok(Step(\"a.toml\"))
vme step a.toml --|Ok(Step(\"a.toml\"))
vme step -- --help|Ok(Step(\"--help\"))
vme step -- --|Ok(Step(\"--\"))
vme step -|Ok(Step(\"-\"))
vme step |Ok(Step(\"\"))
vme step step|Ok(Step(\"step\"))
vme run a.toml|Ok(Run(\"a.toml\"))
vme|Err(Usage)
vme x|Err(Usage)
vme step|Err(Usage)
vme step --|Err(Usage)
vme step -x|Err(Usage)
vme step --help|Err(Usage)
vme step a.toml b.toml|Err(Usage)
vme step -- a.toml b.toml|Err(Usage)
vme step a.toml -- b.toml|Err(Usage)
vme run|Err(Usage)
vme run a.toml b.toml|Err(Usage)
vme cycles a|Err(Usage)
vme cycles -- a|Err(Usage)
vme -- cycles|Err(Usage)
vme --help|Err(Usage)
vme help|Err(Usage)
vme Cycles|Err(Usage)
";

/// Returns the words of a line, which single spaces separate.
fn words_of(alloc: Global, line: &str) -> Result<Vec<String>, AllocError> {
    let mut words = Vec::new(alloc);
    for word in line.split(' ') {
        words.push(String::from_str(alloc, word)?)?;
    }
    Ok(words)
}

#[test]
fn reads_the_three_forms_alone(rt: HostRuntime) {
    for row in LINES.lines() {
        let (line, wanted) = row.split_once('|').expect(&rt, "no text");
        let words = words_of(rt.alloc(), line).expect(&rt, "no memory");
        let read = read_words(rt.alloc(), words.as_slice());
        let text = format!(in rt.alloc(); "{read:?}").expect(&rt, "no memory");
        assert_eq!(rt; text.as_str(), wanted, "{line}");
    }
    assert_eq!(rt; read_words(rt.alloc(), &[]), Err(WordsFault::Usage));
}
