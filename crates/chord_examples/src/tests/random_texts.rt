//! Random scenarios of 3 to 8 nodes.
ghost use Rattle.std.specs.Prelude.{◌≡◌, ◌<◌, ◌≤◌};

use std::alloc::{AllocError, Global};
use std::fmt::Write as _;

/// A generator of pseudorandom numbers.
#[derive(Drop)]
pub struct Dice {
    pub state: u64,
}

impl Dice {
    pub fn next(&mut self) -> u64 {
        self.state = self.state.wrapping_add(0x9e37_79b9_7f4a_7c15);
        let first = (self.state ^ (self.state >> 30)).wrapping_mul(0xbf58_476d_1ce4_e5b9);
        let second = (first ^ (first >> 27)).wrapping_mul(0x94d0_49bb_1331_11eb);
        second ^ (second >> 31)
    }

    /// A number below the bound.
    pub fn below(&mut self, bound: u32) -> u32
        requires { 0 < bound }
        ensures { result < bound }
    {
        (self.next() % bound as u64) as u32
    }
}

/// What a scenario has of each kind.
#[derive(Clone, Copy, Drop)]
struct Shape {
    nodes: u32,
    bits: u32,
    list: u32,
    window: u32,
    duration: u32,
    churn: bool,
    ghost some: { 2 ≤ nodes },
    ghost few: { nodes ≤ 8 },
    ghost lasting: { 0 < duration },
}

/// How many identifiers have 4 to 8 bits.
fn size_of(bits: u32) -> u32
    ensures { 0 < result }
{
    match bits {
        4 => 16,
        5 => 32,
        6 => 64,
        7 => 128,
        _ => 256,
    }
}

fn random_shape(dice: &mut Dice, shortest: u32) -> Shape
    requires { (0 < shortest) × (shortest ≤ 3000) }
{
    let nodes = 3 + dice.below(6);
    let bits = 4 + dice.below(5);
    let list = 1 + dice.below(if nodes == 3 { 2 } else { 3 });
    let window = 1 + dice.below(30);
    let duration = shortest + dice.below(shortest);
    let churn = dice.below(2) == 0;
    Shape {
        nodes,
        bits,
        list,
        window,
        duration,
        churn,
    }
}

/// The profile of a random scenario, and the settings of its network.
fn write_network(text: &mut String, dice: &mut Dice) -> Result<(), AllocError> {
    let profile = match dice.below(3) {
        0 => 1,
        1 => 2,
        _ => 4,
    };
    writeln!(text, "profile = {profile}")?;
    if profile == 1 {
        return Ok(());
    }
    let (loss, spread) = (dice.below(200_000), dice.below(60));
    writeln!(text, "loss_ppm = {loss}\nspread_us = {spread}")?;
    if profile == 4 {
        writeln!(text, "retries = {}", dice.below(4))?;
        write_repair(text, dice)?;
    }
    Ok(())
}

/// How a random scenario of the extended profile joins and checks.
fn write_repair(text: &mut String, dice: &mut Dice) -> Result<(), AllocError> {
    if dice.below(2) == 0 {
        writeln!(text, "join_pause_us = {}", 1 + dice.below(60))?;
    }
    if dice.below(2) == 0 {
        writeln!(text, "join_forever = true")?;
    }
    if dice.below(2) == 0 {
        writeln!(text, "check_us = {}", 40 + dice.below(200))?;
    }
    if dice.below(2) == 0 {
        writeln!(text, "detail = true")?;
    }
    Ok(())
}

/// The settings of a random scenario.
fn write_settings(text: &mut String, dice: &mut Dice, shape: Shape) -> Result<(), AllocError> {
    let Shape {
        bits,
        list,
        window,
        duration,
        ..
    } = shape;
    write_network(text, dice)?;
    writeln!(text, "bits = {bits}\nlist = {list}")?;
    writeln!(text, "seed = {}", dice.below(1_000_000))?;
    writeln!(text, "duration_us = {duration}\nwindow_us = {window}")?;
    writeln!(
        text,
        "latency_us = {}",
        window as u64 + dice.below(40) as u64
    )?;
    writeln!(text, "timeout_us = {}", 20 + dice.below(150))?;
    writeln!(text, "audit_us = {}", 100 + dice.below(1500))?;
    writeln!(text, "stabilize_us = {}", 50 + dice.below(300))?;
    writeln!(text, "finger_us = {}", 50 + dice.below(300))?;
    writeln!(text, "jitter_us = {}", dice.below(30))?;
    if dice.below(3) != 0 {
        let least = 20 + dice.below(100);
        let most = least + dice.below(200);
        writeln!(text, "[lookups]\ngap_min_us = {least}\ngap_max_us = {most}")?;
    }
    if shape.churn {
        let least = 200 + dice.below(500);
        let most = least + dice.below(500);
        writeln!(text, "[churn]\nlife_min_us = {least}\nlife_max_us = {most}")?;
        let least = 50 + dice.below(200);
        let most = least + dice.below(200);
        writeln!(text, "down_min_us = {least}\ndown_max_us = {most}")?;
    }
    Ok(())
}

/// The nodes of a random scenario: their identifiers differ, and one more than the list has places are initial.
fn write_nodes(text: &mut String, dice: &mut Dice, shape: Shape) -> Result<(), AllocError> {
    let size = size_of(shape.bits);
    let mut ident = dice.below(256);
    let step = 2 * dice.below(128) + 1;
    for node in 0..shape.nodes {
        let place = ident % size;
        ident = ident.wrapping_add(step);
        writeln!(text, "[[node]]\nname = \"n{node}\"\nid = {place}")?;
        if node <= shape.list || dice.below(2) == 0 {
            writeln!(text, "initial = true")?;
        }
        if shape.churn && dice.below(2) == 0 {
            writeln!(text, "churn = true")?;
        }
    }
    Ok(())
}

/// Up to eleven commands.
fn write_commands(text: &mut String, dice: &mut Dice, shape: Shape) -> Result<(), AllocError> {
    for _command in 0..dice.below(12) {
        let time = dice.below(shape.duration);
        let node = dice.below(shape.nodes);
        writeln!(text, "[[command]]\nat_us = {time}\nnode = \"n{node}\"")?;
        match dice.below(4) {
            0 => writeln!(text, "do = \"crash\"")?,
            1 => {
                let via = (node + 1 + dice.below(shape.nodes - 1)) % shape.nodes;
                writeln!(text, "do = \"join\"\nvia = \"n{via}\"")?;
            }
            _ => {
                let key = dice.below(size_of(shape.bits));
                writeln!(text, "do = \"lookup\"\nkey = {key}")?;
            }
        }
    }
    Ok(())
}

/// Rows with latencies for some pairs of nodes.
fn write_latencies(text: &mut String, dice: &mut Dice, shape: Shape) -> Result<(), AllocError> {
    for first in 0..shape.nodes {
        for second in 0..first {
            if dice.below(3) == 0 {
                let latency = shape.window as u64 + dice.below(60) as u64;
                writeln!(text, "n{first},n{second},{latency}")?;
            }
        }
    }
    Ok(())
}

/// The texts of a random scenario.
#[derive(Drop)]
pub struct RandomTexts {
    pub nodes: u32,
    pub toml: String,
    pub csv: String,
}

/// The next random scenario, which lasts `shortest` microseconds or up to twice as long. Some are not accepted.
pub fn random_texts(
    alloc: Global,
    dice: &mut Dice,
    shortest: u32,
) -> Result<RandomTexts, AllocError>
    requires { (0 < shortest) × (shortest ≤ 3000) }
{
    let shape = random_shape(dice, shortest);
    let mut toml = String::new(alloc);
    write_settings(&mut toml, dice, shape)?;
    write_nodes(&mut toml, dice, shape)?;
    write_commands(&mut toml, dice, shape)?;
    let mut csv = String::new(alloc);
    write_latencies(&mut csv, dice, shape)?;
    Ok(RandomTexts {
        nodes: shape.nodes,
        toml,
        csv,
    })
}
