//! Requests of processes: that one be made, that a child be stopped, resumed, killed or moved.
ghost use Rattle.std.specs.Prelude.{◌≡◌, ◌<◌, ◌≤◌, ◌*◌, ◌+◌, ◌&&◌, IfOk, None, OnErr, Some, length, option_map};
ghost use Rattle.dm_procman.specs.Taking.{answers, asks, asks_for, bad_request, child_address, control_of, controls, controls_child, requests, sends, wants_child, wants_move};
ghost use Rattle.dm_procman.specs.Controls.{what_of};
ghost use Rattle.dm_procman.specs.Making.{message_to};

use crate::making::{answer_over, message_to};
use crate::{Pending, ProcMan};
use dm_link::{Addr, Link};
use dm_lists::Bounded;
use dm_memory::NoMemory;
use dm_message::{MOST_LINKS, Message, What};
use dm_onekernel::PendingKind;
use std::alloc::Global;

/// The first byte of a request over a link with code 0: a process is to be made.
const CREATE: u8 = 1;

/// The first byte of a request over a link to a child that it move; a machine follows.
const MOVE: u8 = 5;

/// What a bad request is answered.
const BAD_REQUEST: u8 = 2;

/// What is done to a child.
#[derive(Clone, Copy)]
enum Control {
    Stop,
    Resume,
    Kill,
}

impl Control {
    /// What the one byte of a request over a link to a child asks for.
    fn from_byte(byte: u8) -> Option<Control>
        ensures { option_map what_of result ≡ control_of byte }
    {
        match byte {
            2 => Some(Control::Stop),
            3 => Some(Control::Resume),
            4 => Some(Control::Kill),
            _ => None,
        }
    }

    /// What the child's kernel is told.
    fn what(self) -> What
        ensures { result ≡ what_of self }
    {
        match self {
            Control::Stop => What::Stop,
            Control::Resume => What::Resume,
            Control::Kill => What::Kill,
        }
    }
}

impl ProcMan {
    /// Counts a message as sent.
    fn send(&mut self, here: u8, to: Addr, what: What) -> Message
        requires { self.old.sent < u32.MAX }
        ensures { record { manager = self.new; message = Some result } ≡ sends self.old (message_to here self.old.moves self.old.sent to what) }
    {
        let message = message_to(here, self.moves, self.sent, to, what);
        self.sent += 1;
        message
    }

    /// One byte goes over the link of an answer, with at most 4 links.
    fn answer(
        &mut self,
        alloc: Global,
        here: u8,
        link: &Link,
        code: u8,
        links: &[Link],
    ) -> Result<Message, NoMemory>
        requires counts { self.old.sent < u32.MAX }
        requires links { length links.now ≤ MOST_LINKS }
        ensures exact { IfOk result (λ sent. record { manager = self.new; message = Some sent } ≡ answers here self.old link.now code links.now) }
        ensures err { OnErr result (self.new ≡ self.old) }
    {
        let message = answer_over(alloc, here, self.moves, self.sent, link, code, links)?;
        self.sent += 1;
        Ok(message)
    }

    /// A bad request is answered over its first link, if it has one.
    fn bad_request(
        &mut self,
        alloc: Global,
        here: u8,
        links: &[Link],
    ) -> Result<Option<Message>, NoMemory>
        requires { self.old.sent < u32.MAX }
        ensures exact { IfOk result (λ sent. record { manager = self.new; message = sent } ≡ bad_request here self.old links.now) }
        ensures err { OnErr result (self.new ≡ self.old) }
    {
        let [first, ..] = links else {
            return Ok(None);
        };
        self.answer(alloc, here, first, BAD_REQUEST, &[]).map(Some)
    }

    /// Sends a request, which waits for the answer.
    fn ask(
        &mut self,
        here: u8,
        kind: PendingKind,
        to: Addr,
        what: What,
        answer: Option<Link>,
    ) -> Result<Message, NoMemory>
        requires counts { self.old.sent < u32.MAX }
        ensures exact { IfOk result (λ sent. asks here self.old kind to what answer ≡ record { manager = self.new; message = Some sent }) }
        ensures err { OnErr result (self.new ≡ self.old) }
    {
        let pending = Pending {
            n: self.sent,
            kind,
            answer,
        };
        self.pending.push(pending)?;
        Ok(self.send(here, to, what))
    }

    /// Takes a body that came over a link with code 0: it asks that a process be made.
    pub(crate) fn request(
        &mut self,
        alloc: Global,
        here: u8,
        body: &[u8],
        links: &[Link],
    ) -> Result<Option<Message>, NoMemory>
        requires counts { self.old.sent < u32.MAX }
        requires links { length links.now ≤ MOST_LINKS }
        ensures exact { IfOk result (λ sent. requests here self.old body.now links.now ≡ record { manager = self.new; message = sent }) }
        ensures err { OnErr result (self.new ≡ self.old) }
    {
        match body {
            [CREATE, machine, high, low] => {
                let image = 256 * u16::from(*high) + u16::from(*low);
                self.want_child(alloc, here, *machine, image, links)
            },
            _ => self.bad_request(alloc, here, links),
        }
    }

    /// Asks for a process if there are that machine, that image, and a link for the answer.
    fn want_child(
        &mut self,
        alloc: Global,
        here: u8,
        machine: u8,
        image: u16,
        links: &[Link],
    ) -> Result<Option<Message>, NoMemory>
        requires counts { self.old.sent < u32.MAX }
        requires links { length links.now ≤ MOST_LINKS }
        ensures exact { IfOk result (λ sent. wants_child here self.old machine image links.now ≡ record { manager = self.new; message = sent }) }
        ensures err { OnErr result (self.new ≡ self.old) }
    {
        let [answer, others @ ..] = links else {
            return Ok(None);
        };
        if machine < self.machines && image < self.images {
            self.ask_for(alloc, here, machine, image, *answer, others)
                .map(Some)
        } else {
            self.bad_request(alloc, here, links)
        }
    }

    /// Asks the kernel of a machine for a process; the request waits for the answer.
    fn ask_for(
        &mut self,
        alloc: Global,
        here: u8,
        machine: u8,
        image: u16,
        answer: Link,
        links: &[Link],
    ) -> Result<Message, NoMemory>
        requires counts { self.old.sent < u32.MAX }
        requires links { length links.now ≤ 3 }
        ensures exact { IfOk result (λ sent. asks_for here self.old machine image answer links.now ≡ record { manager = self.new; message = Some sent }) }
        ensures err { OnErr result (self.new ≡ self.old) }
    {
        let what = What::Create {
            image,
            links: Bounded::from_slice(alloc, links)?,
        };
        self.ask(
            here,
            PendingKind::Create,
            Addr::of_kernel(machine),
            what,
            Some(answer),
        )
    }

    /// Takes a body that came over a link with the number of a child as its code.
    pub(crate) fn control(
        &mut self,
        alloc: Global,
        here: u8,
        code: u32,
        body: &[u8],
        links: &[Link],
    ) -> Result<Option<Message>, NoMemory>
        requires { self.old.sent < u32.MAX }
        ensures exact { IfOk result (λ sent. controls here self.old (child_address self.old.children code) body.now links.now ≡
            record { manager = self.new; message = sent }) }
        ensures err { OnErr result (self.new ≡ self.old) }
    {
        let Some(child) = self.children.numbered(code) else {
            return self.bad_request(alloc, here, links);
        };
        match body {
            [operation] => self.control_child(alloc, here, child, *operation, links),
            [MOVE, machine] => self.want_move(alloc, here, child, *machine, links),
            _ => self.bad_request(alloc, here, links),
        }
    }

    /// Stops, resumes or kills a child.
    fn control_child(
        &mut self,
        alloc: Global,
        here: u8,
        child: Addr,
        operation: u8,
        links: &[Link],
    ) -> Result<Option<Message>, NoMemory>
        requires { self.old.sent < u32.MAX }
        ensures exact { IfOk result (λ sent. controls_child here self.old child (control_of operation) links.now ≡ record { manager = self.new; message = sent }) }
        ensures err { OnErr result (self.new ≡ self.old) }
    {
        match Control::from_byte(operation) {
            Some(control) => Ok(Some(self.send(here, child, control.what()))),
            None => self.bad_request(alloc, here, links),
        }
    }

    /// Asks a child to move to a machine, if there is that machine; the request waits for the answer.
    fn want_move(
        &mut self,
        alloc: Global,
        here: u8,
        child: Addr,
        machine: u8,
        links: &[Link],
    ) -> Result<Option<Message>, NoMemory>
        requires { self.old.sent < u32.MAX }
        ensures exact { IfOk result (λ sent. wants_move here self.old child machine links.now ≡ record { manager = self.new; message = sent }) }
        ensures err { OnErr result (self.new ≡ self.old) }
    {
        if machine >= self.machines {
            return self.bad_request(alloc, here, links);
        }
        let answer = links.first().copied();
        self.ask(
            here,
            PendingKind::Move,
            child,
            What::Move { machine },
            answer,
        )
        .map(Some)
    }
}
