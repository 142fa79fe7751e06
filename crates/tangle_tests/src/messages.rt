//! What refusals and failed writes say, which no program prints.
use std::test::Fail;
use tangle_lines::{NoMemory, Refusal, WriteFault};

const REFUSALS: [(Refusal, &str); 14] = [
    (Refusal::BadName, "a bad file name"),
    (Refusal::FileExists, "the file exists"),
    (Refusal::TooManyFiles, "too many files"),
    (Refusal::LineTooLong, "a line is too long"),
    (Refusal::TooManyLines, "too many lines"),
    (Refusal::NoMemory, "no memory"),
    (Refusal::UnknownFile, "no such file"),
    (Refusal::NoSuchLine, "no such line"),
    (Refusal::BadLine, "a line feed in a line"),
    (Refusal::NoWeb, "no web file"),
    (Refusal::NoChange, "no change file"),
    (Refusal::RoleFile, "the file has a role"),
    (Refusal::NoOutput, "no such output"),
    (Refusal::WriteFault(12), "the writer failed after 12 bytes"),
];

#[test]
fn refusals_in_words(rt: HostRuntime) -> Result<(), Fail> {
    for (refusal, words) in &REFUSALS {
        assert!(rt; format!(in rt.alloc(); "{refusal}")?.as_str() == *words);
    }
    let text = format!(in rt.alloc(); "{NoMemory}, {}", WriteFault(7))?;
    assert!(rt; text.as_str() == "no memory, the writer failed after 7 bytes");
    Ok(())
}
