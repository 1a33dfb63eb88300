//! The first rule that tables break.
ghost use Rattle.std.specs.Prelude.{◌≡◌, map};
ghost use Rattle.toml.specs.View.{items_view, view};
ghost use Rattle.dm_boot.specs.Tables.{first_failing};
ghost use Rattle.dm_boot.specs.Rules.{broken_at, first_broken, keeps, rule_of};

use crate::document::Document;
use crate::limits::{
    has_good_image_count, has_good_machine_count, has_good_room, has_good_settings, has_image_name,
    has_link_count, has_machine, has_process_name, image_blocks, image_place,
};
use crate::rules::{BootRule, TableRule};
use crate::shapes::{is_image, is_machine, is_process, is_top};
use crate::tables::items_at;
use crate::targets::{are_limited, have_targets};
use toml::Value;

/// The first of these rules that is broken, and its first place.
#[tactic(auto, using(crate::proofs::Rows::row_lemmas))]
pub fn first_broken(document: &Document<'_>, rules: &[TableRule]) -> Option<(BootRule, u64)>
    ensures { result ≡ first_broken (map rule_of rules.now) (view document.now.top.now) }
{
    for rule in rules {
        if let Some(place) = broken_at(document, *rule) {
            return Some((rule.rule(), place as u64));
        }
    }
    None
}

/// The first place where a rule is broken.
#[tactic(auto, unfolding(crate::specs::Rules::broken_at, crate::specs::Rules::subjects, crate::specs::Rules::rule_of, crate::specs::Tables::first_failing))]
fn broken_at(document: &Document<'_>, rule: TableRule) -> Option<usize>
    ensures { result ≡ broken_at (rule_of rule) (view document.now.top.now) }
{
    let top = document.top;
    match rule {
        TableRule::TopKeys
        | TableRule::Settings
        | TableRule::MachineCount
        | TableRule::ImageCount => {
            if keeps(document, rule, 0, top) {
                None
            } else {
                Some(0)
            }
        }
        TableRule::MachineKeys | TableRule::MachineRoom => {
            first_failing(document, rule, items_at(top, "machine"))
        }
        TableRule::ImageKeys | TableRule::ImageName | TableRule::ImageBlocks => {
            first_failing(document, rule, items_at(top, "image"))
        }
        TableRule::ProcessKeys
        | TableRule::ProcessName
        | TableRule::ProcessMachine
        | TableRule::ProcessImage
        | TableRule::LinkCount
        | TableRule::LinkTarget
        | TableRule::LinkLimits => first_failing(document, rule, items_at(top, "process")),
    }
}

/// The place of the first of these elements that breaks a rule.
#[tactic(auto, using(crate::proofs::Elements::failing_lemmas))]
fn first_failing(document: &Document<'_>, rule: TableRule, elements: &[Value]) -> Option<usize>
    ensures { result ≡ first_failing (keeps (rule_of rule) (view document.now.top.now)) 0 (items_view elements.now) }
{
    for (i, element) in elements.iter().enumerate() {
        if !keeps(document, rule, i, element) {
            return Some(i);
        }
    }
    None
}

/// Whether an element at its place is what a rule says.
#[tactic(auto, unfolding(crate::specs::Rules::keeps, crate::specs::Rules::rule_of))]
fn keeps(document: &Document<'_>, rule: TableRule, place: usize, element: &Value) -> bool
    ensures { result ≡ keeps (rule_of rule) (view document.now.top.now) place (view element.now) }
{
    match rule {
        TableRule::TopKeys => is_top(element),
        TableRule::Settings => has_good_settings(element),
        TableRule::MachineCount => has_good_machine_count(element),
        TableRule::MachineKeys => is_machine(element),
        TableRule::MachineRoom => has_good_room(element),
        TableRule::ImageCount => has_good_image_count(element),
        TableRule::ImageKeys => is_image(element),
        TableRule::ImageName => has_image_name(document, place, element),
        TableRule::ImageBlocks => image_blocks(element).is_some(),
        TableRule::ProcessKeys => is_process(element),
        TableRule::ProcessName => has_process_name(document, place, element),
        TableRule::ProcessMachine => has_machine(document.top, element),
        TableRule::ProcessImage => image_place(document, element).is_some(),
        TableRule::LinkCount => has_link_count(document.top, element),
        TableRule::LinkTarget => have_targets(document, items_at(element, "links")),
        TableRule::LinkLimits => are_limited(document, items_at(element, "links")),
    }
}
