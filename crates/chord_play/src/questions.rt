//! What `check` and `ids` print.
ghost use Rattle.std.specs.Prelude.{◌≡◌, ◌++◌, ◌<◌, ℕ, IfOk, OnOk, string_bytes};
ghost use Rattle.chord_scenario.specs.World.{node_count};
ghost use Rattle.chord_play.specs.Answers.{check_text, ident_line, ids_text, told};

use chord_scenario::Scenario;
use std::alloc::{AllocError, Global};

/// A question about an accepted scenario.
#[derive(Clone, Copy, Drop)]
pub enum Question {
    /// How many nodes and commands it has (`check`).
    Counts,
    /// The name and the identifier of each node (`ids`).
    Idents,
}

/// The answer to a question.
pub fn answer(alloc: Global, question: Question, scenario: &Scenario) -> Result<String, AllocError>
    ensures { IfOk result (λ answer. string_bytes answer ≡ told question scenario.now) }
{
    match question {
        Question::Counts => check_answer(alloc, scenario),
        Question::Idents => ids_answer(alloc, scenario),
    }
}

/// How many nodes and commands an accepted scenario has.
fn check_answer(alloc: Global, scenario: &Scenario) -> Result<String, AllocError>
    ensures { IfOk result (λ answer. string_bytes answer ≡ check_text scenario.now) }
{
    let nodes = scenario.nodes();
    let commands = scenario.commands();
    let mut answer = String::new(alloc);
    writeln!(answer, "ok nodes={nodes} commands={commands}")?;
    Ok(answer)
}

/// The name and the identifier of each node, in decimal, in the order of the file.
fn ids_answer(alloc: Global, scenario: &Scenario) -> Result<String, AllocError>
    ensures { IfOk result (λ answer. string_bytes answer ≡ ids_text scenario.now) }
{
    let mut answer = String::new(alloc);
    for node in 0..scenario.nodes() {
        push_ident(&mut answer, scenario, node)?;
    }
    Ok(answer)
}

fn push_ident(answer: &mut String, scenario: &Scenario, node: u32) -> Result<(), AllocError>
    requires { node < node_count scenario.now }
    ensures { OnOk result (string_bytes answer.new ≡ string_bytes answer.old ++ ident_line scenario.now node) }
{
    let name = scenario.name(node);
    let ident = scenario.ident(node).raw();
    writeln!(answer, "{name} {ident}")
}
