//! The tables of a scenario file: their places, their keys, and what each key holds.

ghost use Rattle.std.specs.Prelude.{◌≡◌};
ghost use Rattle.chord_scenario.specs.FileKeys.{churn_keys, command_keys, keys_at, key_name, class_keys, node_keys, top_keys};
ghost use Rattle.chord_scenario.specs.Sections.{key_of, place_in};

use std::fmt;

/// The place of a table of the scenario file, or of a row of the latency file. Nodes, classes of
/// nodes, commands and rows are counted from 1.
#[derive(Clone, Copy)]
pub enum Place {
    Top,
    Churn,
    Lookups,
    Node(usize),
    /// A class of nodes.
    Nodes(usize),
    Command(usize),
    Row(usize),
}

impl fmt::Display for Place {
    fn fmt<W: fmt::Write>(&self, f: &mut fmt::Formatter<W>) -> fmt::Result {
        match self {
            Place::Top => f.write_str("top"),
            Place::Churn => f.write_str("churn"),
            Place::Lookups => f.write_str("lookups"),
            Place::Node(number) => write!(f, "node {number}"),
            Place::Nodes(number) => write!(f, "nodes {number}"),
            Place::Command(number) => write!(f, "command {number}"),
            Place::Row(number) => write!(f, "row {number}"),
        }
    }
}

/// A key of a table of the scenario file.
#[derive(Clone, Copy)]
pub enum FileKey {
    Profile,
    Bits,
    List,
    Seed,
    DurationUs,
    WindowUs,
    LatencyUs,
    TimeoutUs,
    AuditUs,
    StabilizeUs,
    FingerUs,
    JitterUs,
    MaxEvents,
    LossPpm,
    SpreadUs,
    Retries,
    JoinPauseUs,
    JoinForever,
    CheckUs,
    Detail,
    ListRoutes,
    GoesOn,
    AskOwner,
    LookupTimeouts,
    DropSilent,
    SkipNear,
    RandomStart,
    StabilizeJitterUs,
    FingerJitterUs,
    CheckJitterUs,
    CleanLists,
    JoinAsks,
    CreateAlone,
    Churn,
    Lookups,
    Node,
    Nodes,
    Command,
    LifeMinUs,
    LifeMaxUs,
    DownMinUs,
    DownMaxUs,
    LeavePpm,
    GapMinUs,
    GapMaxUs,
    Name,
    Id,
    Initial,
    Bootstrap,
    XUs,
    YUs,
    HeightUs,
    SideUs,
    Count,
    Prefix,
    AtUs,
    Do,
    Via,
    Key,
}

/// The keys as the file writes them, in the order of `FileKey`.
static KEY_NAMES: [&str; 59] = [
    "profile",
    "bits",
    "list",
    "seed",
    "duration_us",
    "window_us",
    "latency_us",
    "timeout_us",
    "audit_us",
    "stabilize_us",
    "finger_us",
    "jitter_us",
    "max_events",
    "loss_ppm",
    "spread_us",
    "retries",
    "join_pause_us",
    "join_forever",
    "check_us",
    "detail",
    "list_routes",
    "goes_on",
    "ask_owner",
    "lookup_timeouts",
    "drop_silent",
    "skip_near",
    "random_start",
    "stabilize_jitter_us",
    "finger_jitter_us",
    "check_jitter_us",
    "clean_lists",
    "join_asks",
    "create_alone",
    "churn",
    "lookups",
    "node",
    "nodes",
    "command",
    "life_min_us",
    "life_max_us",
    "down_min_us",
    "down_max_us",
    "leave_ppm",
    "gap_min_us",
    "gap_max_us",
    "name",
    "id",
    "initial",
    "bootstrap",
    "x_us",
    "y_us",
    "height_us",
    "side_us",
    "count",
    "prefix",
    "at_us",
    "do",
    "via",
    "key",
];

impl FileKey {
    /// The key as the file writes it.
    pub fn name(self) -> &'static str
        ensures { result.now ≡ key_name self }
    {
        KEY_NAMES[self as usize]
    }
}

/// What a value may be.
#[derive(Clone, Copy)]
pub(crate) enum Form {
    /// A whole number from the first to the second.
    Whole(u64, u64),
    /// The number of a profile.
    Profile,
    Text,
    /// One of `join`, `crash` and `lookup`, and if the flag says so, also `leave`.
    Operation(bool),
    Boolean,
    /// A whole number, or a text of at most this many hexadecimal digits.
    Identifier(usize),
    Table,
    /// An array of tables, whose length is from the first number to the second.
    Tables(usize, usize),
}

/// When a key is required.
#[derive(Clone, Copy)]
pub(crate) enum Presence {
    Required,
    Optional,
    /// In a file without classes of nodes.
    WithoutClasses,
    /// In a file with a node or a class that has `churn = true`.
    ForChurn,
    /// In a file with a node or a class that has one of the keys of coordinates.
    ForCoordinates,
    /// In a command that joins.
    ForJoin,
    /// In a command that looks up.
    ForLookup,
}

/// The tables of one array.
#[derive(Clone, Copy)]
pub(crate) enum Group {
    Nodes,
    Classes,
    Commands,
}

impl Group {
    /// The key that holds the tables.
    pub fn key(self) -> FileKey
        ensures { result ≡ key_of self }
    {
        match self {
            Group::Nodes => FileKey::Node,
            Group::Classes => FileKey::Nodes,
            Group::Commands => FileKey::Command,
        }
    }

    /// The place of the table of this number.
    pub fn place(self, number: usize) -> Place
        ensures { result ≡ place_in self number }
    {
        match self {
            Group::Nodes => Place::Node(number),
            Group::Classes => Place::Nodes(number),
            Group::Commands => Place::Command(number),
        }
    }
}

/// A key of a table, with what it may hold and when it is required.
#[derive(Clone, Copy)]
pub(crate) struct Entry(pub FileKey, pub Form, pub Presence);

/// A number of microseconds that is at least 1.
const INTERVAL: Form = Form::Whole(1, 1_000_000_000);

const PROFILE: Entry = Entry(FileKey::Profile, Form::Profile, Presence::Required);

const BITS: Entry = Entry(FileKey::Bits, Form::Whole(3, 64), Presence::Required);

const WIDE_BITS: Entry = Entry(FileKey::Bits, Form::Whole(3, 128), Presence::Required);

const LIST: Entry = Entry(FileKey::List, Form::Whole(1, 16), Presence::Required);

const LONG_LIST: Entry = Entry(FileKey::List, Form::Whole(1, 32), Presence::Required);

const SEED: Entry = Entry(
    FileKey::Seed,
    Form::Whole(0, 9_223_372_036_854_775_807),
    Presence::Required,
);

const DURATION: Entry = Entry(
    FileKey::DurationUs,
    Form::Whole(1, 1_000_000_000_000),
    Presence::Required,
);

const WINDOW: Entry = Entry(FileKey::WindowUs, INTERVAL, Presence::Required);

const LATENCY: Entry = Entry(FileKey::LatencyUs, INTERVAL, Presence::Required);

const TIMEOUT: Entry = Entry(FileKey::TimeoutUs, INTERVAL, Presence::Required);

const AUDIT: Entry = Entry(FileKey::AuditUs, INTERVAL, Presence::Required);

const STABILIZE: Entry = Entry(FileKey::StabilizeUs, INTERVAL, Presence::Required);

const FINGER: Entry = Entry(FileKey::FingerUs, INTERVAL, Presence::Required);

const JITTER: Entry = Entry(
    FileKey::JitterUs,
    Form::Whole(0, 1_000_000_000),
    Presence::Optional,
);

const MAX_EVENTS: Entry = Entry(
    FileKey::MaxEvents,
    Form::Whole(1, 50_000_000),
    Presence::Optional,
);

/// The most events of a run in the extended profile.
const LONG_RUN: Entry = Entry(
    FileKey::MaxEvents,
    Form::Whole(1, 100_000_000_000),
    Presence::Optional,
);

const LOSS: Entry = Entry(
    FileKey::LossPpm,
    Form::Whole(0, 1_000_000),
    Presence::Optional,
);

const SPREAD: Entry = Entry(
    FileKey::SpreadUs,
    Form::Whole(0, 1_000_000_000),
    Presence::Optional,
);

const RETRIES: Entry = Entry(FileKey::Retries, Form::Whole(0, 3), Presence::Optional);

const JOIN_PAUSE: Entry = Entry(
    FileKey::JoinPauseUs,
    Form::Whole(0, 1_000_000_000),
    Presence::Optional,
);

const JOIN_FOREVER: Entry = Entry(FileKey::JoinForever, Form::Boolean, Presence::Optional);

const CHECK: Entry = Entry(
    FileKey::CheckUs,
    Form::Whole(0, 1_000_000_000),
    Presence::Optional,
);

const DETAIL: Entry = Entry(FileKey::Detail, Form::Boolean, Presence::Optional);

const LIST_ROUTES: Entry = Entry(FileKey::ListRoutes, Form::Boolean, Presence::Optional);

const GOES_ON: Entry = Entry(FileKey::GoesOn, Form::Boolean, Presence::Optional);

const ASK_OWNER: Entry = Entry(FileKey::AskOwner, Form::Boolean, Presence::Optional);

const LOOKUP_TIMEOUTS: Entry = Entry(
    FileKey::LookupTimeouts,
    Form::Whole(0, 64),
    Presence::Optional,
);

const DROP_SILENT: Entry = Entry(FileKey::DropSilent, Form::Boolean, Presence::Optional);

const SKIP_NEAR: Entry = Entry(FileKey::SkipNear, Form::Boolean, Presence::Optional);

const RANDOM_START: Entry = Entry(FileKey::RandomStart, Form::Boolean, Presence::Optional);

/// A number of microseconds by which a timer may come later than its period.
const LATER: Form = Form::Whole(0, 1_000_000_000);

const STABILIZE_JITTER: Entry = Entry(FileKey::StabilizeJitterUs, LATER, Presence::Optional);

const FINGER_JITTER: Entry = Entry(FileKey::FingerJitterUs, LATER, Presence::Optional);

const CHECK_JITTER: Entry = Entry(FileKey::CheckJitterUs, LATER, Presence::Optional);

const CLEAN_LISTS: Entry = Entry(FileKey::CleanLists, Form::Boolean, Presence::Optional);

const JOIN_ASKS: Entry = Entry(FileKey::JoinAsks, Form::Boolean, Presence::Optional);

const CREATE_ALONE: Entry = Entry(FileKey::CreateAlone, Form::Boolean, Presence::Optional);

const CHURN: Entry = Entry(FileKey::Churn, Form::Table, Presence::ForChurn);

const LOOKUPS: Entry = Entry(FileKey::Lookups, Form::Table, Presence::Optional);

const NODES: Entry = Entry(FileKey::Node, Form::Tables(2, 512), Presence::Required);

const MANY_NODES: Entry = Entry(FileKey::Node, Form::Tables(2, 4096), Presence::Required);

const MOST_NODES: Entry = Entry(
    FileKey::Node,
    Form::Tables(2, 65_536),
    Presence::WithoutClasses,
);

const CLASSES: Entry = Entry(FileKey::Nodes, Form::Tables(1, 16), Presence::Optional);

const COMMANDS: Entry = Entry(
    FileKey::Command,
    Form::Tables(0, 100_000),
    Presence::Optional,
);

// One list for each profile, of entries that are named once: so the differences are easy to see.
/// The keys at top in the first profile.
static TOP_KEYS: [Entry; 17] = [
    PROFILE, BITS, LIST, SEED, DURATION, WINDOW, LATENCY, TIMEOUT, AUDIT, STABILIZE, FINGER,
    JITTER, MAX_EVENTS, CHURN, LOOKUPS, NODES, COMMANDS,
];

/// The keys at top in the second profile.
static NETWORK_TOP_KEYS: [Entry; 19] = [
    PROFILE, WIDE_BITS, LIST, SEED, DURATION, WINDOW, LATENCY, TIMEOUT, AUDIT, STABILIZE, FINGER,
    JITTER, MAX_EVENTS, LOSS, SPREAD, CHURN, LOOKUPS, MANY_NODES, COMMANDS,
];

/// The keys at top in the extended profile.
static EXTENDED_TOP_KEYS: [Entry; 38] = [
    PROFILE,
    WIDE_BITS,
    LONG_LIST,
    SEED,
    DURATION,
    WINDOW,
    LATENCY,
    TIMEOUT,
    AUDIT,
    STABILIZE,
    FINGER,
    JITTER,
    LONG_RUN,
    LOSS,
    SPREAD,
    RETRIES,
    JOIN_PAUSE,
    JOIN_FOREVER,
    CHECK,
    DETAIL,
    LIST_ROUTES,
    GOES_ON,
    ASK_OWNER,
    LOOKUP_TIMEOUTS,
    DROP_SILENT,
    SKIP_NEAR,
    RANDOM_START,
    STABILIZE_JITTER,
    FINGER_JITTER,
    CHECK_JITTER,
    CLEAN_LISTS,
    JOIN_ASKS,
    CREATE_ALONE,
    CHURN,
    LOOKUPS,
    MOST_NODES,
    CLASSES,
    COMMANDS,
];

const LIFE_MIN: Entry = Entry(FileKey::LifeMinUs, INTERVAL, Presence::Required);

const LIFE_MAX: Entry = Entry(FileKey::LifeMaxUs, INTERVAL, Presence::Required);

const DOWN_MIN: Entry = Entry(FileKey::DownMinUs, INTERVAL, Presence::Required);

const DOWN_MAX: Entry = Entry(FileKey::DownMaxUs, INTERVAL, Presence::Required);

const LEAVE: Entry = Entry(
    FileKey::LeavePpm,
    Form::Whole(0, 1_000_000),
    Presence::Optional,
);

/// The keys of the table `churn` in the first two profiles.
static CHURN_KEYS: [Entry; 4] = [LIFE_MIN, LIFE_MAX, DOWN_MIN, DOWN_MAX];

/// The keys of the table `churn` in the extended profile.
static EXTENDED_CHURN_KEYS: [Entry; 5] = [LIFE_MIN, LIFE_MAX, DOWN_MIN, DOWN_MAX, LEAVE];

static LOOKUPS_KEYS: [Entry; 2] = [
    Entry(FileKey::GapMinUs, INTERVAL, Presence::Required),
    Entry(FileKey::GapMaxUs, INTERVAL, Presence::Required),
];

/// An identifier of the first profile.
const IDENTIFIER: Form = Form::Identifier(16);

/// An identifier of the second and the extended profile.
const LONG_IDENTIFIER: Form = Form::Identifier(32);

const NAME: Entry = Entry(FileKey::Name, Form::Text, Presence::Required);

const ID: Entry = Entry(FileKey::Id, IDENTIFIER, Presence::Optional);

const LONG_ID: Entry = Entry(FileKey::Id, LONG_IDENTIFIER, Presence::Optional);

const INITIAL: Entry = Entry(FileKey::Initial, Form::Boolean, Presence::Optional);

const CHURNS: Entry = Entry(FileKey::Churn, Form::Boolean, Presence::Optional);

const BOOTSTRAP: Entry = Entry(FileKey::Bootstrap, Form::Boolean, Presence::Optional);

/// The keys of a node in the first profile.
static NODE_KEYS: [Entry; 4] = [NAME, ID, INITIAL, CHURNS];

/// The keys of a node in the second profile.
static LONG_NODE_KEYS: [Entry; 4] = [NAME, LONG_ID, INITIAL, CHURNS];

/// A number of microseconds along an axis of the plane of coordinates.
const ALONG_AXIS: Form = Form::Whole(0, 500_000_000);

const X: Entry = Entry(FileKey::XUs, ALONG_AXIS, Presence::ForCoordinates);

const Y: Entry = Entry(FileKey::YUs, ALONG_AXIS, Presence::ForCoordinates);

const HEIGHT: Entry = Entry(
    FileKey::HeightUs,
    Form::Whole(0, 100_000_000),
    Presence::Optional,
);

/// The keys of a node in the extended profile.
static PLACED_NODE_KEYS: [Entry; 8] = [NAME, LONG_ID, INITIAL, CHURNS, BOOTSTRAP, X, Y, HEIGHT];

const COUNT: Entry = Entry(
    FileKey::Count,
    Form::Whole(2, 1_048_576),
    Presence::Required,
);

const PREFIX: Entry = Entry(FileKey::Prefix, Form::Text, Presence::Required);

const SIDE: Entry = Entry(FileKey::SideUs, ALONG_AXIS, Presence::Optional);

/// The keys of a class of nodes, which only the extended profile has.
static CLASS_KEYS: [Entry; 9] = [
    COUNT, PREFIX, INITIAL, CHURNS, BOOTSTRAP, X, Y, HEIGHT, SIDE,
];

const AT: Entry = Entry(
    FileKey::AtUs,
    Form::Whole(0, 1_000_000_000_000),
    Presence::Required,
);

const DO: Entry = Entry(FileKey::Do, Form::Operation(false), Presence::Required);

const DO_OR_LEAVE: Entry = Entry(FileKey::Do, Form::Operation(true), Presence::Required);

const NODE: Entry = Entry(FileKey::Node, Form::Text, Presence::Required);

const VIA: Entry = Entry(FileKey::Via, Form::Text, Presence::ForJoin);

const KEY: Entry = Entry(FileKey::Key, IDENTIFIER, Presence::ForLookup);

const LONG_KEY: Entry = Entry(FileKey::Key, LONG_IDENTIFIER, Presence::ForLookup);

/// The keys of a command in the first profile.
static COMMAND_KEYS: [Entry; 5] = [AT, DO, NODE, VIA, KEY];

/// The keys of a command in the second profile.
static LONG_COMMAND_KEYS: [Entry; 5] = [AT, DO, NODE, VIA, LONG_KEY];

/// The keys of a command in the extended profile.
static EXTENDED_COMMAND_KEYS: [Entry; 5] = [AT, DO_OR_LEAVE, NODE, VIA, LONG_KEY];

/// The keys at top in a profile.
fn top_keys(profile: u64) -> &'static [Entry]
    ensures { result.now ≡ top_keys profile }
{
    match profile {
        2 => &NETWORK_TOP_KEYS,
        4 => &EXTENDED_TOP_KEYS,
        _ => &TOP_KEYS,
    }
}

/// The keys of the table `churn` in a profile.
fn churn_keys(profile: u64) -> &'static [Entry]
    ensures { result.now ≡ churn_keys profile }
{
    match profile {
        4 => &EXTENDED_CHURN_KEYS,
        _ => &CHURN_KEYS,
    }
}

/// The keys of a command in a profile.
fn command_keys(profile: u64) -> &'static [Entry]
    ensures { result.now ≡ command_keys profile }
{
    match profile {
        2 => &LONG_COMMAND_KEYS,
        4 => &EXTENDED_COMMAND_KEYS,
        _ => &COMMAND_KEYS,
    }
}

/// The keys of a node in a profile.
fn node_keys(profile: u64) -> &'static [Entry]
    ensures { result.now ≡ node_keys profile }
{
    match profile {
        2 => &LONG_NODE_KEYS,
        4 => &PLACED_NODE_KEYS,
        _ => &NODE_KEYS,
    }
}

/// The keys of a class of nodes in a profile.
fn class_keys(profile: u64) -> &'static [Entry]
    ensures { result.now ≡ class_keys profile }
{
    match profile {
        4 => &CLASS_KEYS,
        _ => &[],
    }
}

/// The keys of the table at a place, in order. A `profile` other than the numbers 2 and 4 is checked
/// with the keys of the first profile.
pub(crate) fn keys_at(profile: u64, place: Place) -> &'static [Entry]
    ensures { result.now ≡ keys_at profile place }
{
    match place {
        Place::Top => top_keys(profile),
        Place::Churn => churn_keys(profile),
        Place::Lookups => &LOOKUPS_KEYS,
        Place::Node(_) => node_keys(profile),
        Place::Nodes(_) => class_keys(profile),
        Place::Command(_) => command_keys(profile),
        Place::Row(_) => &[],
    }
}
