//! Divisions of the nodes into parts.
ghost use Rattle.std.specs.Prelude.{◌≡◌, nat_le};
ghost use Rattle.std.specs.List.{list_any};
ghost use Rattle.des_window.specs.Divisions.{first_fault};

use des_event::Memory;
use std::alloc::Global;
use std::fmt;
use std::marker::Model;

/// Why a list of parts is no division of the nodes. If several faults apply, the first is returned.
#[derive(Clone, Copy, Debug, PartialEq, Eq, Drop)]
pub enum DivisionFault {
    /// There is no part.
    NoParts,
    /// There are more than 512 parts.
    TooManyParts,
    /// The list does not have one entry for each node.
    WrongLength,
    /// An entry is not below the number of parts.
    PartOutOfRange,
}

// The names of the variants. The program never prints them: it makes its divisions itself.
impl fmt::Display for DivisionFault {
    fn fmt<W: fmt::Write>(&self, f: &mut fmt::Formatter<W>) -> fmt::Result {
        match self {
            DivisionFault::NoParts => f.write_str("NoParts"),
            DivisionFault::TooManyParts => f.write_str("TooManyParts"),
            DivisionFault::WrongLength => f.write_str("WrongLength"),
            DivisionFault::PartOutOfRange => f.write_str("PartOutOfRange"),
        }
    }
}

/// The most parts that a division has.
pub const MOST_PARTS: u32 = 512;

/// A number of parts, and the part of each node.
#[derive(Drop)]
pub struct Division {
    parts: u32,
    of_node: Vec<u32>,
}

impl Model for Division {
    ghost use Rattle.des_model.specs.Windows.{Division as ADivision};

    ghost Value = { ADivision };

    ghost view = { λ d. record { parts = d.parts; of_node = d.of_node.items } };

    ghost use Rattle.des_window.specs.Divisions.{AreWithin};

    ghost invariant = { λ d. AreWithin d.parts d.of_node.items };
}

impl Division {
    ghost use Rattle.std.specs.Prelude.{◌≡◌, ◌<◌, ◌≤◌, map, length, None, Some, IfOk, IfErr};
    ghost use Rattle.std.specs.List.{All, range_with_len};
    ghost use Rattle.des_window.specs.Divisions.{block_part, dealt_part, first_fault};
    ghost use Rattle.des_model.specs.Windows.{part_of};

    /// The division that gives each node the part in the list. There must be 1 to 512 parts, one
    /// entry for each node, and each entry must be below the number of parts.
    ///
    /// # Errors
    ///
    /// The first that applies of `NoParts`, `TooManyParts`, `WrongLength` and `PartOutOfRange`. A
    /// refused list is dropped.
    pub fn new(nodes: u32, parts: u32, of_node: Vec<u32>) -> Result<Division, DivisionFault>
        ensures sound { IfOk result (λ _. first_fault nodes parts of_node.items ≡ None) }
        ensures value { IfOk result (λ d. d ≡ record { parts = parts; of_node = of_node.items }) }
        ensures fault { IfErr result (λ fault. first_fault nodes parts of_node.items ≡ Some fault) }
    {
        match first_fault(nodes, parts, of_node.as_slice()) {
            Some(fault) => Err(fault),
            None => Ok(Division { parts, of_node }),
        }
    }

    /// The division that gives each node the part in the list, for callers that know of each entry
    /// that it is below the number of parts.
    #[doc(hidden)]
    pub fn of_list(parts: u32, of_node: Vec<u32>) -> Division
        requires parts { (0 < parts) × (parts ≤ MOST_PARTS) }
        requires below { All (λ p. p < parts) of_node.items }
        ensures { result ≡ record { parts = parts; of_node = of_node.items } }
    {
        Division { parts, of_node }
    }

    /// The division that deals the nodes to the parts in turn: the part of node i is i modulo the
    /// number of parts, which is 1 to 512.
    ///
    /// # Errors
    ///
    /// `Memory`, if an allocation fails.
    pub fn dealt(alloc: Global, nodes: u32, parts: u32) -> Result<Division, Memory>
        requires nodes { 0 < nodes }
        requires parts { (0 < parts) × (parts ≤ MOST_PARTS) }
        ensures { IfOk result (λ d. d ≡ record { parts = parts; of_node = map (dealt_part parts) (range_with_len 0 nodes) }) }
    {
        let mut of_node = Vec::new(alloc);
        for node in 0..nodes {
            of_node.push(node % parts)?;
        }
        Ok(Division { parts, of_node })
    }

    /// The division of the nodes into blocks of neighbours, as even as possible: the part of node i
    /// is i times the number of parts, which is 1 to 512, divided by the number of nodes, rounded
    /// down.
    ///
    /// # Errors
    ///
    /// `Memory`, if an allocation fails.
    pub fn blocks(alloc: Global, nodes: u32, parts: u32) -> Result<Division, Memory>
        requires nodes { 0 < nodes }
        requires parts { (0 < parts) × (parts ≤ MOST_PARTS) }
        ensures { IfOk result (λ d. d ≡ record { parts = parts; of_node = map (block_part nodes parts) (range_with_len 0 nodes) }) }
    {
        let mut of_node = Vec::new(alloc);
        for node in 0..nodes {
            of_node.push((node as u64 * parts as u64 / nodes as u64) as u32)?;
        }
        Ok(Division { parts, of_node })
    }

    /// What holds of every division.
    pub fn recall_division(&self)
        ensures few { (0 < self.now.parts) × (self.now.parts ≤ MOST_PARTS) }
        ensures below { All (λ p. p < self.now.parts) self.now.of_node }
    {
        // A no-op for the machine: it hands the prover what the type keeps.
        let _ = &self.parts;
    }

    /// A copy of the division.
    pub fn try_clone(&self) -> Result<Division, Memory>
        ensures { IfOk result (λ copy. copy ≡ self.now) }
    {
        let of_node = Vec::from_slice(*self.of_node.allocator(), self.of_node.as_slice())?;
        Ok(Division {
            parts: self.parts,
            of_node,
        })
    }

    /// The number of nodes. It is a `usize` as the length of the list, though `new` takes a `u32`.
    pub fn nodes(&self) -> usize
        ensures { result ≡ length self.now.of_node }
    {
        self.of_node.len()
    }

    /// The number of parts.
    pub fn parts(&self) -> u32
        ensures { result ≡ self.now.parts }
    {
        self.parts
    }

    /// The part of a node.
    pub fn part_of(&self, node: u32) -> u32
        requires { node < length self.now.of_node }
        ensures { result ≡ part_of self.now node }
    {
        self.of_node[node as usize]
    }
}

/// The first reason why a list is no division of `nodes` nodes into `parts` parts.
fn first_fault(nodes: u32, parts: u32, of_node: &[u32]) -> Option<DivisionFault>
    ensures { result ≡ first_fault nodes parts of_node.now }
{
    if parts == 0 {
        Some(DivisionFault::NoParts)
    } else if parts > MOST_PARTS {
        Some(DivisionFault::TooManyParts)
    } else if of_node.len() != nodes as usize {
        Some(DivisionFault::WrongLength)
    } else if has_part_from(of_node, parts) {
        Some(DivisionFault::PartOutOfRange)
    } else {
        None
    }
}

/// Whether an entry is `parts` or more.
fn has_part_from(list: &[u32], parts: u32) -> bool
    ensures { result ≡ list_any (λ p. nat_le parts p) list.now }
{
    list.iter().any(|p| *p >= parts)
}
