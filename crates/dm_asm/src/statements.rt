//! The bytes of statements.
ghost use Rattle.std.specs.Prelude.{◌≡◌, None, length, true};
ghost use Rattle.dm_reading.specs.Words.{source_words};
ghost use Rattle.dm_asm.specs.Labels.{place_in};
ghost use Rattle.dm_asm.specs.Refusals.{Gives, bytes_behind};
ghost use Rattle.dm_asm.specs.Statements.{form_bytes, instruction_bytes, listed_bytes, statement_bytes, takes_operands};
ghost use Rattle.dm_asm.specs.declared.forms.Form.TheVariants.{Align, Ascii, Byte, Equ, Word, Zero};
ghost use Rattle.dm_asm.specs.Texts.{text_in, text_operand};

use crate::calls::add_call;
use crate::forms::{Form, Shape};
use crate::labels::{Labels, padding};
use crate::operands::{
    last_bytes, next_multiple, next_name, next_number, next_value, number_within,
};
use crate::refusals::{Stop, Why};
use crate::texts::text_operand;
use byteorder::{BigEndian, ByteOrder};
use dm_memory::{append_zeros, extend_from_slice, push};
use dm_processor::Opcode;
use dm_reading::{Gap, count_words, next_word};

/// Adds an instruction.
fn add_instruction(
    labels: &Labels,
    image: &mut Vec<u8>,
    op: Opcode,
    operands: &[u8],
) -> Result<(), Stop>
    ensures { Gives (λ _. image.new.items) result
        (bytes_behind image.old.items (instruction_bytes (place_in labels.now) (length image.old.items) op (source_words operands.now))) }
{
    let at = image.len();
    let last = last_bytes(labels, at, Shape::of(op), operands)?;
    let [a, b, c] = last;
    extend_from_slice(image, &[op.code(), a, b, c])?;
    Ok(())
}

/// Adds a word.
fn add_word(labels: &Labels, image: &mut Vec<u8>, operands: &[u8]) -> Result<(), Stop>
    ensures { Gives (λ _. image.new.items) result
        (bytes_behind image.old.items (form_bytes (place_in labels.now) (length image.old.items) None Word (source_words operands.now))) }
{
    let (word, _) = next_value(labels, operands, u32::MAX)?;
    let mut bytes = [0; 4];
    BigEndian::write_u32(&mut bytes, word);
    extend_from_slice(image, &bytes)?;
    Ok(())
}

/// Adds listed bytes.
fn add_listed(image: &mut Vec<u8>, operands: &[u8]) -> Result<(), Stop>
    ensures { Gives (λ _. image.new.items) result (bytes_behind image.old.items (listed_bytes (source_words operands.now))) }
{
    let mut rest = operands;
    while let Some((word, others)) = next_word(rest, Gap::Separators) {
        match number_within(word, 255) {
            Ok(byte) => push(image, byte as u8)?,
            Err(why) => return Err(Stop::Fault(why)),
        }
        rest = others;
    }
    Ok(())
}

/// Adds zeros.
fn add_zeros(labels: &Labels, image: &mut Vec<u8>, operands: &[u8]) -> Result<(), Stop>
    ensures { Gives (λ _. image.new.items) result
        (bytes_behind image.old.items (form_bytes (place_in labels.now) (length image.old.items) None Zero (source_words operands.now))) }
{
    let (n, _) = next_number(operands, 65_536)?;
    append_zeros(image, n)?;
    Ok(())
}

/// Adds zeros up to a multiple of a number.
fn add_padding(labels: &Labels, image: &mut Vec<u8>, operands: &[u8]) -> Result<(), Stop>
    ensures { Gives (λ _. image.new.items) result
        (bytes_behind image.old.items (form_bytes (place_in labels.now) (length image.old.items) None Align (source_words operands.now))) }
{
    let (n, _) = next_multiple(operands)?;
    let zeros = padding(image.len() as u128, n);
    append_zeros(image, zeros)?;
    Ok(())
}

/// Adds the text of a line without its comment.
fn add_text(labels: &Labels, image: &mut Vec<u8>, line: &[u8], operands: &[u8]) -> Result<(), Stop>
    ensures { Gives (λ _. image.new.items) result
        (bytes_behind image.old.items (form_bytes (place_in labels.now) (length image.old.items) (text_in line.now) Ascii (source_words operands.now))) }
{
    match text_operand(line, operands) {
        None => Err(Stop::Fault(Why::BadNumber)),
        Some(text) => {
            extend_from_slice(image, text)?;
            Ok(())
        }
    }
}

/// Adds nothing where `.equ` gives a name a number.
fn add_nothing(labels: &Labels, image: &Vec<u8>, operands: &[u8]) -> Result<(), Stop>
    ensures { Gives (λ _. image.now.items) result
        (bytes_behind image.now.items (form_bytes (place_in labels.now) (length image.now.items) None Equ (source_words operands.now))) }
{
    let (_, rest) = next_name(operands)?;
    let _ = next_number(rest, u32::MAX)?;
    Ok(())
}

/// Whether an instruction, call or directive can have so many operands.
fn can_have(form: Form, operands: usize) -> bool
    ensures { result ≡ takes_operands form operands }
{
    match form {
        Form::Instruction(op) => operands == Shape::of(op).operands(),
        Form::Calling(call) => call.takes(operands),
        Form::Word | Form::Zero | Form::Align => operands == 1,
        Form::Byte | Form::Ascii => operands > 0,
        Form::Equ => operands == 2,
    }
}

/// Adds what an instruction, call or directive with its operands is, in a line without its comment.
fn add_form(
    labels: &Labels,
    image: &mut Vec<u8>,
    form: Form,
    line: &[u8],
    operands: &[u8],
) -> Result<(), Stop>
    requires { takes_operands form (length (source_words operands.now)) ≡ true }
    ensures { Gives (λ _. image.new.items) result
        (bytes_behind image.old.items (form_bytes (place_in labels.now) (length image.old.items) (text_in line.now) form (source_words operands.now))) }
{
    match form {
        Form::Instruction(op) => add_instruction(labels, image, op, operands),
        Form::Calling(call) => add_call(labels, image, call, operands),
        Form::Word => add_word(labels, image, operands),
        Form::Byte => add_listed(image, operands),
        Form::Zero => add_zeros(labels, image, operands),
        Form::Align => add_padding(labels, image, operands),
        Form::Ascii => add_text(labels, image, line, operands),
        Form::Equ => add_nothing(labels, image, operands),
    }
}

/// Adds what stands behind a label, if any, in a line without its comment. The label may be defined before.
#[tactic(auto, unfolding(crate::specs::Statements::statement_bytes))]
pub fn add_statement(
    labels: &Labels,
    image: &mut Vec<u8>,
    twice: bool,
    line: &[u8],
    statement: &[u8],
) -> Result<(), Stop>
    ensures { Gives (λ _. image.new.items) result
        (bytes_behind image.old.items (statement_bytes (place_in labels.now) (length image.old.items) twice (text_in line.now) (source_words statement.now))) }
{
    match next_word(statement, Gap::Separators) {
        None if twice => Err(Stop::Fault(Why::LabelTwice)),
        None => Ok(()),
        Some((word, operands)) => match Form::from_word(word) {
            None => Err(Stop::Fault(Why::UnknownWord)),
            Some(_) if twice => Err(Stop::Fault(Why::LabelTwice)),
            Some(form) if can_have(form, count_words(operands, Gap::Separators)) => {
                add_form(labels, image, form, line, operands)
            }
            Some(_) => Err(Stop::Fault(Why::OperandCount)),
        },
    }
}
