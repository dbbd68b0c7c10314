//! The pieces of a trace.
use chord_audit::AuditLine;
use chord_event::Block;

/// A piece of a trace: the block of an event, or the line of an audit. It is public because
/// contracts of other crates name it.
#[derive(Drop)]
pub enum Piece {
    OfEvent { block: Block },
    OfAudit { audit: AuditLine },
}
