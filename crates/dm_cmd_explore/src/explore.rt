//! The command `explore`: it looks through the schedules of a system, and says whether there is one in which a line is printed, or a
//! process gets stuck.
ghost use Rattle.std.specs.Prelude.{◌≡◌, IfErr, IfOk, None, length, option_map, true};
ghost use Rattle.dm_onekernel.specs.Boot.{IsValid};
ghost use Rattle.dm_explore.specs.Answers.{answer_said};
ghost use Rattle.dm_explore.specs.AnswerText.{answer_text};
ghost use Rattle.dm_explore.specs.Asked.{question_said};
ghost use Rattle.dm_run.specs.Went.{RunsGo};
ghost use Rattle.dm_words.specs.ExploreWords.{ExploreIsWithin};
ghost use Rattle.dm_cmd_explore.specs.Explores.{Answers, ExploreMeets, GivesNone, TellsOrNot, are_for, question_of, status_of_answer};
ghost use Rattle.dm_front.specs.Firsts.{FirstOfBoot};
ghost use Rattle.dm_front.specs.Meets.{MeetsSink};
ghost use Rattle.dm_front.specs.Outside.{around, shelf_around, sink_around};
ghost use Rattle.dm_cmd_explore.specs.ByWorld.{answered_by_world};

use crate::named::{pids_of, requests_of};
use dm_ending::status::Status;
use dm_explore::{Answer, Bounds, Question, explore, write_answer};
use dm_front::inputs::read_system;
use dm_front::write::ended;
use dm_link::Pid;
use dm_memory::NoMemory;
use dm_onekernel::Boot;
use dm_outside::{Shelf, Sink};
use dm_run::write_all;
use dm_words::explore::Exploration;
use std::alloc::Global;

/// Looks through the schedules of the system of the boot file of this name, and writes the first of the shortest ones in which what is
/// looked for is found, or that there is none. What is said of a boot file that is refused is left in `said`, which is empty where
/// nothing is said.
pub fn explore_file<F: Shelf, K: Sink>(
    alloc: Global,
    boot: &str,
    line: Option<&str>,
    exploration: &Exploration,
    shelf: &mut F,
    out: &mut K,
    said: &mut Vec<u8>,
) -> Status
    requires law { RunsGo }
    requires within { ExploreIsWithin exploration.now }
    ensures meets { ExploreMeets answered_by_world boot.now (option_map (λ l. l.now) line.entry) exploration.now
        (around (shelf_around F.asked F.told F.faults F.last_failed shelf.old shelf.new)
        (sink_around K.told K.faults K.last_failed out.old out.new)) None result }
    ensures said { FirstOfBoot (F.told shelf.old) boot.now result said.new.items }
{
    match read_system(alloc, boot, shelf, said) {
        Ok(system) => match answer_of(alloc, system, line, exploration) {
            Ok(answer) => tell(alloc, &answer, out),
            Err(status) => status,
        },
        Err(status) => status,
    }
}

/// What comes of exploring a system.
fn answer_of(
    alloc: Global,
    system: Boot,
    line: Option<&str>,
    exploration: &Exploration,
) -> Result<Answer, Status>
    requires law { RunsGo }
    requires valid { IsValid system }
    requires within { ExploreIsWithin exploration.now }
    ensures answer { IfOk result (λ a. Answers answered_by_world system (option_map (λ l. l.now) line.entry) exploration.now (answer_said a)) }
    ensures named { IfOk result (λ _. are_for (length system.machines) exploration.now ≡ true) }
    ensures none { IfErr result (GivesNone (length system.machines) exploration.now) }
{
    let machines = system.machines.len() as u8;
    let requests = requests_of(alloc, machines, exploration)?;
    let pids = pids_of(alloc, machines, &exploration.stuck)?;
    let bounds = Bounds {
        depth: exploration.depth,
        most: exploration.most,
        requests,
        ticks: exploration.ticks,
        repeats: exploration.repeats,
        acks: exploration.acks,
    };
    match explore(alloc, system, &bounds, question_of(line, pids.as_slice())) {
        Ok(answer) => Ok(answer),
        Err(no) => Err(Status::NoMemory(no)),
    }
}

/// What is looked for: a line that begins with these words, or else that one of these processes is stuck.
fn question_of<'a>(line: Option<&'a str>, pids: &'a [Pid]) -> Question<'a>
    ensures { question_said result ≡ question_of (option_map (λ l. l.now) line.entry) pids.now }
{
    match line {
        Some(text) => Question::Line(text.as_bytes()),
        None => Question::Stuck(pids),
    }
}

/// Writes an answer.
fn tell<K: Sink>(alloc: Global, answer: &Answer, out: &mut K) -> Status
    ensures says { TellsOrNot (K.told out.old) (K.told out.new) (answer_said answer.now) result }
    ensures sink { MeetsSink (sink_around K.told K.faults K.last_failed out.old out.new) result }
{
    match text_of(alloc, answer) {
        Ok(text) => ended(write_all(out, text.as_slice()), status_of_answer(answer)),
        Err(no) => Status::NoMemory(no),
    }
}

/// The text of an answer.
fn text_of(alloc: Global, answer: &Answer) -> Result<Vec<u8>, NoMemory>
    ensures { IfOk result (λ text. text.items ≡ answer_text (answer_said answer.now)) }
{
    let mut text = Vec::new(alloc);
    write_answer(answer, &mut text)?;
    Ok(text)
}

/// The status of an answer that is written.
fn status_of_answer(answer: &Answer) -> Status
    ensures { result ≡ status_of_answer (answer_said answer.now) }
{
    match answer {
        Answer::Found(_) => Status::Done,
        Answer::None { .. } => Status::NotFound,
        Answer::Undecided { .. } => Status::Undecided,
    }
}
