//! What is asked for is done, by the command's crate: a row a request.
ghost use Rattle.dm_run.specs.Went.{RunsGo};
ghost use Rattle.dm_words.specs.Words.{IsInRange, request_said};
ghost use Rattle.dm_front.specs.Outside.{around, shelf_around, sink_around};
ghost use Rattle.dm_program.specs.Commands.{of_world, promise_of};

use dm_cmd_chart::chart::chart_files;
use dm_cmd_check::check::check_files;
use dm_cmd_check::judge::judge_files;
use dm_cmd_check::label_check::check_label_files;
use dm_cmd_count::count::count_files;
use dm_cmd_count::drill::drill_drawn;
use dm_cmd_count::own_drill::drill_file;
use dm_cmd_explain::explain::explain_files;
use dm_cmd_explore::explore::explore_file;
use dm_cmd_look::look::look_files;
use dm_cmd_run::run::run_files;
use dm_ending::status::Status;
use dm_outside::{Shelf, Sink};
use dm_words::words::Request;
use dm_world::World;
use std::alloc::Global;

/// Does what is asked for. The world of a run is left in `world`, which is empty where there was none; and in `said` what `explain` says
/// first of a file that is refused, before the line of its status.
pub(crate) fn do_request<F: Shelf, K: Sink>(
    alloc: Global,
    request: Request<'_>,
    shelf: &mut F,
    out: &mut K,
    world: &mut Option<World>,
    said: &mut Vec<u8>,
) -> Status
    requires law { RunsGo }
    requires within { IsInRange request }
    ensures meets { (promise_of of_world (request_said request.entry)).meets
        (around (shelf_around F.asked F.told F.faults F.last_failed shelf.old shelf.new)
        (sink_around K.told K.faults K.last_failed out.old out.new)) world.new result }
    ensures said { (promise_of of_world (request_said request.entry)).first (F.told shelf.old) result said.new.items }
{
    *world = None;
    *said = Vec::new(alloc);
    match request {
        Request::Run { boot, schedule } => {
            run_files(alloc, boot, schedule, shelf, out, world, said)
        }
        Request::Check { boot, trace } => check_files(alloc, boot, trace, shelf, out, said),
        Request::CheckLabels { boot, labels } => {
            check_label_files(alloc, boot, labels, shelf, out, said)
        }
        Request::Chart {
            boot,
            schedule,
            first,
            last,
        } => chart_files(alloc, boot, schedule, first, last, shelf, out, said),
        Request::Explain { boot, schedule } => explain_files(alloc, boot, schedule, shelf, out),
        Request::Judge { boot, trace } => judge_files(alloc, boot, trace, shelf, out),
        Request::Count { boot, schedule } => {
            count_files(alloc, boot, schedule, shelf, out, world, said)
        }
        Request::Look {
            boot,
            schedule,
            groups,
            names,
        } => look_files(alloc, boot, schedule, groups, names, shelf, out, said),
        Request::Explore {
            boot,
            line,
            exploration,
        } => explore_file(alloc, boot, line, &exploration, shelf, out, said),
        Request::Drill(drawn) => drill_drawn(alloc, &drawn, shelf, out, world),
        Request::OwnDrill { boot, drill } => {
            drill_file(alloc, boot, &drill, shelf, out, world, said)
        }
    }
}
