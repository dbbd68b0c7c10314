//! The text of an event's block.
ghost use Rattle.std.specs.Prelude.{◌≡◌, ◌⊎◌, ◌<◌, ◌++◌, false, OnOk, IfErr, string_bytes, codes, decimal};
ghost use Rattle.std.specs.Io.KnownBytes.{Appends};
ghost use Rattle.chord_scenario.specs.World.{node_count, name_of};
ghost use Rattle.chord_scenario.specs.Blocks.{IsBlockOf, IsLineOf};
ghost use Rattle.chord_trace.specs.Texts.{message_text, message_words, command_text, line_words, line_text, block_text};
ghost use Rattle.des_output.specs.Watched.{wrapped, has_failed};
ghost use Rattle.des_output.specs.Writing.{AppendsFront, is_write};

use chord_event::{Block, CommandKind, Line, MessageKind, RunError};
use chord_scenario::Scenario;
use des_output::{Watched, write_text};
use std::alloc::{AllocError, Global};
use std::fmt::Write as _;
use std::io::Write;

/// The room in bytes that is made for a line before it is written, so that the text does not grow
/// piece by piece. Most lines need less.
const ROOM_FOR_LINE: usize = 96;

/// Writes the lines of an event. The error is `Memory` if an allocation fails, and `Write` if the
/// writer fails.
// Inlined, since most events have no line: they then make no call.
#[inline(always)]
pub fn write_block<W: Write>(
    alloc: Global,
    scenario: &Scenario,
    block: &Block,
    writer: &mut Watched<W>,
) -> Result<(), RunError>
    requires nodes { IsBlockOf scenario.now block.now }
    requires sound { has_failed writer.old ≡ false }
    ensures whole { OnOk result (Appends (W.contents (wrapped writer.old)) (W.contents (wrapped writer.new)) (block_text scenario.now block.now)) }
    ensures front { AppendsFront (W.contents (wrapped writer.old)) (W.contents (wrapped writer.new)) (block_text scenario.now block.now) }
    ensures writer { has_failed writer.new ≡ is_write result }
    ensures only { IfErr result (λ e. (e ≡ RunError.Memory) ⊎ (e ≡ RunError.Write)) }
{
    // Most events write nothing.
    if block.lines.as_slice().is_empty() {
        return Ok(());
    }
    let mut text = String::new(alloc);
    push_block(&mut text, scenario, block)?;
    write_text(text.as_bytes(), writer)
}

#[inline(never)]
fn push_block(text: &mut String, scenario: &Scenario, block: &Block) -> Result<(), AllocError>
    requires { IsBlockOf scenario.now block.now }
    ensures { OnOk result (string_bytes text.new ≡ string_bytes text.old ++ block_text scenario.now block.now) }
{
    for line in block.lines.as_slice() {
        push_line(text, scenario, block.key.time, block.target, *line)?;
    }
    Ok(())
}

fn push_line(
    text: &mut String,
    scenario: &Scenario,
    time: u64,
    node: u32,
    line: Line,
) -> Result<(), AllocError>
    requires target { node < node_count scenario.now }
    requires names { IsLineOf scenario.now line }
    ensures { OnOk result (string_bytes text.new ≡ string_bytes text.old ++ line_text scenario.now time node line) }
{
    text.try_reserve(ROOM_FOR_LINE)?;
    write!(text, "{time} {} ", scenario.name(node))?;
    push_words(text, scenario, line)?;
    text.push('\n')
}

fn push_words(text: &mut String, scenario: &Scenario, line: Line) -> Result<(), AllocError>
    requires { IsLineOf scenario.now line }
    ensures { OnOk result (string_bytes text.new ≡ string_bytes text.old ++ line_words scenario.now line) }
{
    match line {
        Line::Join { via } => push_node(text, scenario, "join ", via),
        Line::Member { predecessor } => push_node(text, scenario, "member ", predecessor),
        Line::JoinFailed => text.push_str("join-failed"),
        Line::Crash => text.push_str("crash"),
        Line::Leave => text.push_str("leave"),
        Line::Stranded { via } => push_node(text, scenario, "stranded ", via),
        Line::Drop { kind, sender } => push_message(text, scenario, "drop", kind, sender),
        Line::Late { kind, sender } => push_message(text, scenario, "late", kind, sender),
        Line::Lose { kind, receiver } => push_message(text, scenario, "lose", kind, receiver),
        Line::Again { kind, receiver } => push_message(text, scenario, "again", kind, receiver),
        Line::Timeout { silent } => push_node(text, scenario, "timeout ", silent),
        Line::Forget { predecessor } => push_node(text, scenario, "forget ", predecessor),
        Line::Rescue { finger } => push_node(text, scenario, "rescue ", finger),
        Line::Create => text.push_str("create"),
        Line::Ask {
            kind,
            receiver,
            call,
        } => push_ask(text, scenario, kind, receiver, call),
        Line::Seek {
            kind,
            receiver,
            call,
            key,
            since,
        } => {
            push_ask(text, scenario, kind, receiver, call)?;
            write!(text, " key={} since={since}", key.raw())
        }
        Line::Send { kind, receiver } => push_message(text, scenario, "send", kind, receiver),
        Line::Lookup { key } => write!(text, "lookup {}", key.raw()),
        Line::Found {
            key,
            owner,
            hops,
            timeouts,
            us,
        } => {
            write!(
                text,
                "found {} {} hops={hops} timeouts={timeouts} us={us}",
                key.raw(),
                scenario.name(owner)
            )
        }
        Line::Lost {
            key,
            hops,
            timeouts,
            us,
        } => {
            write!(
                text,
                "lost {} hops={hops} timeouts={timeouts} us={us}",
                key.raw()
            )
        }
        Line::Busy { key } => write!(text, "busy {}", key.raw()),
        Line::Ignored { command } => write!(text, "ignored {}", command_text(command)),
    }
}

/// Adds a word, which ends in a space, and the name of a node.
fn push_node(
    text: &mut String,
    scenario: &Scenario,
    word: &str,
    node: u32,
) -> Result<(), AllocError>
    requires { node < node_count scenario.now }
    ensures { OnOk result (string_bytes text.new ≡ string_bytes text.old ++ (word.now ++ name_of scenario.now node)) }
{
    text.push_str(word)?;
    text.push_str(scenario.name(node))
}

/// Adds what a line says of a request: its kind, the other node, and the number of the call.
fn push_ask(
    text: &mut String,
    scenario: &Scenario,
    kind: MessageKind,
    other: u32,
    call: u64,
) -> Result<(), AllocError>
    requires { other < node_count scenario.now }
    ensures { OnOk result (string_bytes text.new ≡ string_bytes text.old ++ (message_words scenario.now (codes "ask") kind other ++ codes " call=" ++ decimal call)) }
{
    push_message(text, scenario, "ask", kind, other)?;
    write!(text, " call={call}")
}

/// Adds what a line says of a message: a word, the kind of the message and the other node.
fn push_message(
    text: &mut String,
    scenario: &Scenario,
    word: &str,
    kind: MessageKind,
    other: u32,
) -> Result<(), AllocError>
    requires { other < node_count scenario.now }
    ensures { OnOk result (string_bytes text.new ≡ string_bytes text.old ++ message_words scenario.now word.now kind other) }
{
    write!(
        text,
        "{word} {} {}",
        message_text(kind),
        scenario.name(other)
    )
}

fn message_text(kind: MessageKind) -> &'static str
    ensures { result.now ≡ message_text kind }
{
    match kind {
        MessageKind::Step => "step",
        MessageKind::GetState => "get-state",
        MessageKind::GetList => "get-list",
        MessageKind::Ping => "ping",
        MessageKind::Notify => "notify",
        MessageKind::Leave => "leave",
        MessageKind::StepReply => "step-reply",
        MessageKind::StateReply => "state-reply",
        MessageKind::ListReply => "list-reply",
        MessageKind::Pong => "pong",
    }
}

fn command_text(command: CommandKind) -> &'static str
    ensures { result.now ≡ command_text command }
{
    match command {
        CommandKind::Join => "join",
        CommandKind::Crash => "crash",
        CommandKind::Leave => "leave",
        CommandKind::Lookup => "lookup",
    }
}
