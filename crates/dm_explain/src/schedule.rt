//! What is said of a schedule.
ghost use Rattle.std.specs.Prelude.{◌≡◌, ◌∷◌, ◌++◌, [], OnOk, codes, count_by, option_map};
ghost use Rattle.std.specs.Fmt.{decimal};
ghost use Rattle.std.specs.List.{concat};
ghost use Rattle.dm_reading.specs.Words.{words};
ghost use Rattle.dm_explain.specs.BadOperands.{bad_of, count_words_told, operand_count_told, operand_of, operand_told, range_words};
ghost use Rattle.dm_explain.specs.Schedules.{directives_told, fault_told, is_of, line_told, missing_told, number_note, outside_told, range_told, said, wrong_count_told};

use crate::line::schedule_line;
use crate::part::{Part, put, put_parts};
use crate::wrong::{Bad, Role, bad_operand, operand_count};
use dm_memory::NoMemory;
use dm_reading::{Gap, count_words, next_word};
use dm_schedule::{Directive, Keyword, LineFault, Step};

/// Writes how many directives there are, by word.
pub fn put_directives(into: &mut Vec<u8>, directives: &[Directive]) -> Result<(), NoMemory>
    ensures { OnOk result (into.new.items ≡ into.old.items ++ directives_told directives.now) }
{
    put_parts(
        into,
        &[
            Part::Text("schedule: "),
            Part::Count(directives.len() as u64),
            Part::Text(" directives: turn "),
            Part::Count(many(Keyword::Turn, directives)),
            Part::Text(", tick "),
            Part::Count(many(Keyword::Tick, directives)),
            Part::Text(", deliver "),
            Part::Count(many(Keyword::Deliver, directives)),
            Part::Text(", migrate "),
            Part::Count(many(Keyword::Migrate, directives)),
            Part::Text(", calloff "),
            Part::Count(many(Keyword::CallOff, directives)),
            Part::Text(", round "),
            Part::Count(many(Keyword::Round, directives)),
            Part::Text(", spin "),
            Part::Count(many(Keyword::Spin, directives)),
            Part::Text(", settle "),
            Part::Count(many(Keyword::Settle, directives)),
            Part::Text(", rest "),
            Part::Count(many(Keyword::Rest, directives)),
            Part::Text("\n"),
        ],
    )
}

/// How many of these directives are of a word.
fn many(keyword: Keyword, directives: &[Directive]) -> u64
    ensures { result ≡ count_by (is_of keyword) directives.now }
{
    let mut count = 0;
    for directive in directives {
        if is_of(keyword, directive) {
            count += 1;
        }
    }
    count
}

/// Whether a directive is of a word.
fn is_of(keyword: Keyword, directive: &Directive) -> bool
    ensures { result ≡ is_of keyword directive.now }
{
    match keyword {
        Keyword::Turn => matches!(*directive, Directive::One(Step::Turn(_))),
        Keyword::Tick => matches!(*directive, Directive::One(Step::Tick(_))),
        Keyword::Deliver => matches!(*directive, Directive::One(Step::Deliver { .. })),
        Keyword::Migrate => matches!(*directive, Directive::One(Step::Migrate { .. })),
        Keyword::CallOff => matches!(*directive, Directive::One(Step::CallOff { .. })),
        Keyword::Round => matches!(*directive, Directive::Round),
        Keyword::Spin => matches!(*directive, Directive::Spin(_)),
        Keyword::Settle => matches!(*directive, Directive::Settle),
        Keyword::Rest => matches!(*directive, Directive::Rest(_)),
    }
}

/// Writes which line of a schedule for so many machines is refused, and why.
pub fn put_line(
    into: &mut Vec<u8>,
    bytes: &[u8],
    machines: u8,
    line: u64,
    fault: LineFault,
) -> Result<(), NoMemory>
    ensures { OnOk result (into.new.items ≡ into.old.items ++ line_told bytes.now machines line fault) }
{
    put_parts(
        into,
        &[
            Part::Text("schedule, line "),
            Part::Count(line),
            Part::Text(": why "),
            Part::Byte(fault.number()),
            Part::Text(": "),
        ],
    )?;
    put_fault(into, machines, fault, schedule_line(bytes, line))?;
    put_parts(into, &[Part::Text("\n"), Part::Text(number_note(fault))])
}

/// What a number is, behind a line in which none stands where one must.
fn number_note(fault: LineFault) -> &'static str
    ensures { result.now ≡ number_note fault }
{
    match fault {
        LineFault::NotANumber => "    a number has 1 to 10 digits alone\n",
        LineFault::UnknownWord
        | LineFault::WrongCount
        | LineFault::OutOfRange
        | LineFault::SameMachine => "",
    }
}

/// Writes what is wrong with a line.
fn put_fault(
    into: &mut Vec<u8>,
    machines: u8,
    fault: LineFault,
    line: &[u8],
) -> Result<(), NoMemory>
    ensures { OnOk result (into.new.items ≡ into.old.items ++ fault_told machines fault line.now) }
{
    match fault {
        LineFault::UnknownWord => put_said(into, "no such word", line),
        LineFault::WrongCount => put_wrong_count(into, line),
        LineFault::NotANumber => put_missing(into, bad_operand(machines, line), line),
        LineFault::OutOfRange => put_out_of_range(into, machines, line),
        LineFault::SameMachine => put_said(into, "the two machines are one", line),
    }
}

/// Writes that a word has another number of operands.
#[tactic(auto, using(crate::proofs::Pieces::join_lemmas))]
fn put_wrong_count(into: &mut Vec<u8>, line: &[u8]) -> Result<(), NoMemory>
    ensures { OnOk result (into.new.items ≡ into.old.items ++ wrong_count_told line.now) }
{
    put_said(into, "more or fewer operands than the word has", line)?;
    put_count(into, line)
}

/// Writes that an operand is out of its range.
#[tactic(auto, using(crate::proofs::Pieces::join_lemmas))]
fn put_out_of_range(into: &mut Vec<u8>, machines: u8, line: &[u8]) -> Result<(), NoMemory>
    ensures { OnOk result (into.new.items ≡ into.old.items ++ outside_told machines line.now) }
{
    put_said(into, "a number is out of range, or no machine's", line)?;
    put_range(into, machines, bad_operand(machines, line))
}

/// Writes words, and the line.
#[tactic(auto, unfolding(crate::specs::Schedules::said))]
pub fn put_said(into: &mut Vec<u8>, text: &'static str, line: &[u8]) -> Result<(), NoMemory>
    ensures { OnOk result (into.new.items ≡ into.old.items ++ said text.now line.now) }
{
    put_parts(
        into,
        &[Part::Text(text), Part::Text(": "), Part::Line(line)],
    )
}

/// Writes which operand it is.
#[tactic(auto, unfolding(crate::specs::BadOperands::operand_told))]
fn put_operand(into: &mut Vec<u8>, bad: &Bad) -> Result<(), NoMemory>
    ensures { OnOk result (into.new.items ≡ into.old.items ++ operand_told (bad_of bad.now)) }
{
    put_parts(
        into,
        &[
            Part::Text(": operand "),
            Part::Count(bad.place),
            Part::Text(", "),
            Part::Line(bad.word),
        ],
    )
}

/// Writes what must stand where an operand is.
#[tactic(auto, using(crate::proofs::Pieces::join_lemmas))]
fn put_missing(into: &mut Vec<u8>, bad: Option<Bad<'_>>, line: &[u8]) -> Result<(), NoMemory>
    ensures { OnOk result (into.new.items ≡ into.old.items ++ missing_told (option_map bad_of bad.entry) line.now) }
{
    match bad {
        Some(bad) => {
            put_said(into, bad.role.missing_words(), line)?;
            put_operand(into, &bad)
        }
        None => Ok(()),
    }
}

/// Writes in which range an operand must lie.
#[tactic(auto, using(crate::proofs::Pieces::join_lemmas))]
fn put_range(into: &mut Vec<u8>, machines: u8, bad: Option<Bad<'_>>) -> Result<(), NoMemory>
    ensures { OnOk result (into.new.items ≡ into.old.items ++ range_told machines (option_map bad_of bad.entry)) }
{
    match bad {
        Some(bad) => {
            put_operand(into, &bad)?;
            put_limits(into, machines, bad.role)
        }
        None => Ok(()),
    }
}

/// Writes the range of an operand.
fn put_limits(into: &mut Vec<u8>, machines: u8, role: Role) -> Result<(), NoMemory>
    ensures { OnOk result (into.new.items ≡ into.old.items ++ range_words machines (operand_of role)) }
{
    let last = machines.saturating_sub(1);
    match role {
        Role::Machine => put_machine_range(into, last),
        Role::Process => put_process_range(into, last),
        Role::Packet => put(into, ", must be 0 to 4294967295"),
        Role::Rounds => put(into, ", must be 1 to 65536"),
    }
}

/// Writes the range of a machine, by the last that there is.
fn put_machine_range(into: &mut Vec<u8>, last: u8) -> Result<(), NoMemory>
    ensures { OnOk result (into.new.items ≡ into.old.items ++ concat (codes ", must be 0 to " ∷ decimal last ∷ [])) }
{
    put_parts(into, &[Part::Text(", must be 0 to "), Part::Byte(last)])
}

/// Writes the range of a process, by the last machine that there is.
fn put_process_range(into: &mut Vec<u8>, last: u8) -> Result<(), NoMemory>
    ensures { OnOk result (into.new.items ≡ into.old.items ++
        concat (codes ", must be H.N with H 0 to " ∷ decimal last ∷ codes " and N 0 to 4294967295" ∷ [])) }
{
    put_parts(
        into,
        &[
            Part::Text(", must be H.N with H 0 to "),
            Part::Byte(last),
            Part::Text(" and N 0 to 4294967295"),
        ],
    )
}

/// Writes how many operands the word of a line has, and how many stand there.
#[tactic(auto, unfolding(crate::specs::BadOperands::operand_count_told))]
fn put_count(into: &mut Vec<u8>, line: &[u8]) -> Result<(), NoMemory>
    ensures { OnOk result (into.new.items ≡ into.old.items ++ operand_count_told (words line.now)) }
{
    match next_word(line, Gap::Blanks) {
        None => Ok(()),
        Some((word, rest)) => match Keyword::from_word(word) {
            None => Ok(()),
            Some(keyword) => put_counts(
                into,
                operand_count(keyword),
                count_words(rest, Gap::Blanks) as u64,
            ),
        },
    }
}

/// Writes how many operands a word has, and how many stand there.
#[tactic(auto, unfolding(crate::specs::BadOperands::count_words_told))]
pub fn put_counts(into: &mut Vec<u8>, due: u64, there: u64) -> Result<(), NoMemory>
    ensures { OnOk result (into.new.items ≡ into.old.items ++ count_words_told due there) }
{
    put_parts(
        into,
        &[
            Part::Text(": the word has "),
            Part::Count(due),
            Part::Text(", not "),
            Part::Count(there),
        ],
    )
}
