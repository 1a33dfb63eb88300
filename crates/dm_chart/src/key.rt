//! What is the same in every picture.
ghost use Rattle.std.specs.Prelude.{◌≡◌, ◌++◌, OnOk, map};
ghost use Rattle.std.specs.List.{concat};
ghost use Rattle.dm_chart.specs.Legend.{marks, meanings, style_sheet};

use crate::xml::put_text;
use dm_memory::NoMemory;

/// Writes texts, one behind another.
#[tactic(auto, using(crate::proofs::Pieces::concat_lemmas))]
fn put_texts(into: &mut Vec<u8>, texts: &[&'static str]) -> Result<(), NoMemory>
    ensures { OnOk result (into.new.items ≡ into.old.items ++ concat (map (λ t. t.now) texts.now)) }
{
    for text in texts {
        put_text(into, text)?;
    }
    Ok(())
}

/// Writes how things look.
#[tactic(auto, unfolding(crate::specs::Legend::style_sheet))]
pub fn put_style_sheet(into: &mut Vec<u8>) -> Result<(), NoMemory>
    ensures { OnOk result (into.new.items ≡ into.old.items ++ concat style_sheet) }
{
    put_texts(
        into,
        &[
            "<style>\n",
            "text{font:11px Verdana,DejaVu Sans,sans-serif;fill:#222;stroke:#fff;stroke-width:3px;paint-order:stroke}\n",
            ".t{font-size:15px}.m{font-size:13px;font-weight:bold}.g{fill:#999;font-size:9px}.s{fill:#555;font-size:9px}.q{font-size:10px;fill:#444}\n",
            ".c1{fill:#00695c;font-weight:bold}.c2{fill:#c62828}.c3{fill:#1565c0}.c4{fill:#777;font-size:9px}\n",
            ".n1{fill:#6a1b9a}.n2{fill:#1565c0}.n3{fill:#2e7d32}.n4{fill:#bf360c}.n5{fill:#ad1457}\n",
            "line,path,circle{fill:none;stroke-width:1.3}.ax{stroke:#999}.r{stroke:#eee}.o{stroke:#222}.p{stroke:#9e9e9e;stroke-dasharray:3 3}\n",
            ".k0{stroke:#222;marker-end:url(#a0)}.k1{stroke:#6a1b9a;marker-end:url(#a1)}.k2{stroke:#1e88e5;marker-end:url(#a2)}\n",
            ".k3{stroke:#2e7d32;stroke-dasharray:2 2;marker-end:url(#a3)}.k4{stroke:#d84315;stroke-dasharray:7 3;marker-end:url(#a4)}\n",
            ".k5{stroke:#ad1457;stroke-dasharray:9 3 2 3;marker-end:url(#a5)}.b{stroke-width:6;stroke-opacity:.75}.v{stroke-width:1.6;stroke-dasharray:1 3}.w{stroke:#fff;stroke-width:3}.h{stroke:#fff;stroke-width:26;stroke-opacity:.85}\n",
            "</style>\n",
        ],
    )
}

/// Writes the marks.
#[tactic(auto, unfolding(crate::specs::Legend::marks))]
pub fn put_marks(into: &mut Vec<u8>) -> Result<(), NoMemory>
    ensures { OnOk result (into.new.items ≡ into.old.items ++ concat marks) }
{
    put_texts(
        into,
        &[
            "<defs>\n",
            "<marker id='a0' viewBox='0 0 8 8' refX='8' refY='4' markerWidth='8' markerHeight='8' orient='auto'><path d='M0 0L8 4L0 8z' style='fill:#222'/></marker>\n",
            "<marker id='a1' viewBox='0 0 8 8' refX='8' refY='4' markerWidth='8' markerHeight='8' orient='auto'><path d='M0 0L8 4L0 8z' style='fill:#6a1b9a'/></marker>\n",
            "<marker id='a2' viewBox='0 0 8 8' refX='8' refY='4' markerWidth='8' markerHeight='8' orient='auto'><path d='M0 0L8 4L0 8z' style='fill:#1e88e5'/></marker>\n",
            "<marker id='a3' viewBox='0 0 8 8' refX='8' refY='4' markerWidth='8' markerHeight='8' orient='auto'><path d='M0 0L8 4L0 8z' style='fill:#2e7d32'/></marker>\n",
            "<marker id='a4' viewBox='0 0 8 8' refX='8' refY='4' markerWidth='8' markerHeight='8' orient='auto'><path d='M0 0L8 4L0 8z' style='fill:#d84315'/></marker>\n",
            "<marker id='a5' viewBox='0 0 8 8' refX='8' refY='4' markerWidth='8' markerHeight='8' orient='auto'><path d='M0 0L8 4L0 8z' style='fill:#ad1457'/></marker>\n",
            "<path id='l0' class='k0' d='M0 -6h-10v6h9'/><path id='l1' class='k1' d='M0 -6h-10v6h9'/><path id='l2' class='k2' d='M0 -6h-10v6h9'/>\n",
            "<path id='l3' class='k3' d='M0 -6h-10v6h9'/><path id='l4' class='k4' d='M0 -6h-10v6h9'/><path id='l5' class='k5' d='M0 -6h-10v6h9'/>\n",
            "<circle id='early' r='3.5' style='fill:#fff;stroke:#777'/><circle id='open' r='3' style='fill:#fff;stroke:#c62828'/><circle id='note' r='2' style='fill:#777;stroke:none'/>\n",
            "<path id='again' d='M-3 -3l6 6m0 -6l-6 6' style='stroke:#777'/><path id='lost' d='M-4 -4l8 8m0 -8l-8 8' style='stroke:#c62828'/>\n",
            "</defs>\n",
        ],
    )
}

/// Writes what each thing means.
#[tactic(auto, unfolding(crate::specs::Legend::meanings))]
pub fn put_meanings(into: &mut Vec<u8>) -> Result<(), NoMemory>
    ensures { OnOk result (into.new.items ≡ into.old.items ++ concat meanings) }
{
    put_texts(
        into,
        &[
            "<line class='k0' x1='10' y1='36' x2='46' y2='36'/><text class='q' x='54' y='40'>user message, from its put to an inbox</text>\n",
            "<line class='k1' x1='10' y1='52' x2='46' y2='52'/><text class='q' x='54' y='56'>order, data move, making of a process</text>\n",
            "<line class='k2' x1='10' y1='68' x2='46' y2='68'/><text class='q' x='54' y='72'>message of a migration</text>\n",
            "<line class='k3' x1='10' y1='84' x2='46' y2='84'/><text class='q' x='54' y='88'>update of a sender's links</text>\n",
            "<line class='k4' x1='10' y1='100' x2='46' y2='100'/><text class='q' x='54' y='104'>put again: forwarded, or sent on</text>\n",
            "<line class='k5' x1='10' y1='116' x2='46' y2='116'/><text class='q' x='54' y='120'>goes back: a move is called off</text>\n",
            "<line class='b' stroke='#5c6bc0' x1='10' y1='132' x2='46' y2='132'/><line class='w' x1='28' y1='132' x2='46' y2='132'/><text class='q' x='54' y='136'>a process; hollow while it waits</text>\n",
            "<line class='v' stroke='#5c6bc0' x1='10' y1='148' x2='46' y2='148'/><text class='q' x='54' y='152'>a process that is frozen</text>\n",
            "<line class='p' x1='290' y1='36' x2='326' y2='36'/><use href='#early' x='326' y='36'/><text class='q' x='338' y='40'>packet that came early</text>\n",
            "<line class='p' x1='290' y1='52' x2='326' y2='52'/><use href='#again' x='326' y='52'/><text class='q' x='338' y='56'>packet that came again</text>\n",
            "<line class='p' x1='290' y1='68' x2='326' y2='68'/><use href='#lost' x='326' y='68'/><text class='q' x='338' y='72'>packet that hasn't come by the last row</text>\n",
            "<line class='o' x1='290' y1='84' x2='326' y2='84'/><use href='#open' x='326' y='84'/><text class='q' x='338' y='88'>in no inbox by the last row</text>\n",
            "<use href='#l0' x='326' y='102'/><text class='q' x='338' y='104'>message to its own machine</text>\n",
            "<use href='#note' x='326' y='116'/><text class='q' x='338' y='120'>what its row says is of this machine</text>\n",
            "<text class='q' x='290' y='136'>acknowledgements, queues and idle turns aren't drawn</text>\n",
        ],
    )
}
