//! The words of the programs.

use tests_support::{Answer, Run, Trouble};
use utf16_program::{Job, Program};

// The program of a name.
fn program(name: &str) -> Option<Program> {
    match name {
        "utf16_cat" => Some(Program::Cat),
        "utf16_enc" => Some(Program::Enc),
        "utf16_check" => Some(Program::Check),
        _ => None,
    }
}

fn add_order(answer: &mut Answer, big_endian: Option<bool>) {
    answer.word(match big_endian {
        Some(true) => "be",
        Some(false) => "le",
        None => "auto",
    });
}

fn add_job(answer: &mut Answer, job: Job) {
    let (word, big_endian) = match job {
        Job::Decode(big_endian) => ("decode", big_endian),
        Job::Encode(is_big) => ("encode", Some(is_big)),
        Job::EncodeWithBom(is_big) => ("encode_with_bom", Some(is_big)),
        Job::Check(big_endian) => ("check", big_endian),
    };
    answer.word(word);
    add_order(answer, big_endian);
}

/// Adds the job that a word names, and its byte order.
pub fn job(run: &mut Run) {
    let Some(program) = program(run.word()) else {
        return run.refuse(Trouble::Value);
    };
    let word = run.text();
    match program.job(word.as_str()) {
        Some(job) => add_job(&mut run.answer, job),
        None => run.answer.word("none"),
    }
}
