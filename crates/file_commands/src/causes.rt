//! What is reported of a refused source, and the lines that standard error gets of files.

ghost use Rattle.std.specs.Prelude.{◌≡◌, ◌≤◌, length, Some, Err};
ghost use Rattle.arrayvec.specs.ArrayVec.{array_vec_len};
ghost use Rattle.source_defs.specs.Refusals.{map_ok};
ghost use Rattle.bench_shelf.specs.CopyAnswers.{model_of_cause};
ghost use Rattle.report_defs.specs.FileLines as spec;
ghost use Rattle.report_defs.specs.FileReports.{copy_report};
ghost use Rattle.report_defs.specs.FaultLine as faults;
ghost use Rattle.report_defs.specs.ObjectFaults as objects;
ghost use Rattle.reports.specs.Answers.{error_answer};
ghost use Rattle.file_commands.specs.Copying.{copy_refusal};

use bench_shelf::{CopyCause, CopyError, FileName};
use memory_listing::tag_line;
use object_defs::TagCause;
use report_defs::Fault;
use report_lines::{Line, append, append_count, asm_line, refusal_line};
use reports::CommandError;

/// Why a source with the files that it copies is refused, or is neither assembled nor listed.
pub fn command_error(error: CopyError) -> CommandError
    ensures { error_answer result ≡ map_ok (λ refusal. copy_report (Err refusal)) (copy_refusal error) }
{
    match error {
        CopyError::At { file, line, cause } => CommandError::Refused(copy_line(file, line, cause)),
        CopyError::TooLarge => CommandError::Fault(Fault::TooLarge),
        CopyError::Fault => CommandError::ReadFault,
        CopyError::Memory => CommandError::Memory,
    }
}

/// The line of a refused line of a source, or of a file that it copies, by its number there, from 1.
pub fn copy_line(file: Option<FileName>, line: u32, cause: CopyCause) -> Line
    ensures { result.items ≡ spec.place_line (record { file = file; line = line }) (model_of_cause cause) }
{
    in_file(file, cause_line(line, cause).as_slice())
}

/// The text of a refused line, by its number.
fn cause_line(number: u32, cause: CopyCause) -> Line
    ensures line { result.items ≡ faults.refusal_line number (spec.copy_cause_text (model_of_cause cause)) }
    ensures short { array_vec_len result ≤ 128 }
{
    match cause {
        CopyCause::Asm(cause) => asm_line(number, cause),
        CopyCause::BadCopy => refusal_line(number, b"bad directive"),
        CopyCause::TooDeep => refusal_line(number, b"copy too deep"),
        CopyCause::TooMany => refusal_line(number, b"too many copies"),
        CopyCause::Missing(name) => missing_copy_line(number, &name),
    }
}

/// The text of a COPY line that names no file.
#[tactic(auto, using(std::proofs::Common::append_assoc), unfolding(report_defs::specs::FaultLine::refusal_line))]
fn missing_copy_line(number: u32, name: &FileName) -> Line
    ensures line { result.items ≡ faults.refusal_line number (spec.missing_text name.now) }
    ensures short { array_vec_len result ≤ 128 }
{
    let mut line = Line::new();
    append(&mut line, b"line ");
    append_count(&mut line, u64::from(number));
    append(&mut line, b": ");
    append(&mut line, b"missing ");
    append(&mut line, name_bytes(name));
    line.push(b'\n');
    line
}

/// The line of a file that is missing.
pub fn missing_line(name: FileName) -> Line
    ensures { result.items ≡ spec.missing_line name }
{
    let mut line = Line::new();
    append(&mut line, b"missing ");
    append(&mut line, name_bytes(&name));
    line.push(b'\n');
    line
}

/// The line of a bad place in a file of object text, by the number of its line, from 1.
pub fn file_tag_line(name: FileName, line: u32, cause: TagCause) -> Line
    ensures { result.items ≡ spec.in_file (Some name) (objects.tag_line (record { line = line; cause = cause })) }
{
    in_file(Some(name), tag_line(line, cause).as_slice())
}

/// A line of at most 128 bytes about a file, or about the source itself: after the file's name and a blank.
#[tactic(auto, using(std::proofs::Common::append_assoc))]
fn in_file(file: Option<FileName>, line: &[u8]) -> Line
    requires { length line.now ≤ 128 }
    ensures { result.items ≡ spec.in_file file line.now }
{
    let mut reported = Line::new();
    if let Some(name) = file {
        append(&mut reported, name_bytes(&name));
        reported.push(b' ');
    }
    append(&mut reported, line);
    reported
}

/// The bytes of a file's name, which are 60 at most.
#[tactic(auto, using(crate::proofs::NameLaws::short_name))]
fn name_bytes(name: &FileName) -> &[u8]
    ensures bytes { result.now ≡ name.now }
    ensures short { length result.now ≤ 60 }
{
    name.as_bytes()
}
