//! The table of worked examples.
use crate::examples::play::{SETTINGS, THREE, text_of};
use chord_scenario::{Scenario, ScenarioFault, read_scenario};
use std::alloc::Global;

/// An example: its settings, nodes and commands, its trace, and those lines of its report whose
/// number is not 0.
#[derive(Drop)]
pub struct Example {
    pub name: &'static str,
    pub settings: &'static str,
    pub nodes: &'static str,
    pub commands: &'static str,
    pub trace: &'static str,
    pub report: &'static str,
}

/// Two nodes opposite each other.
const TWO_NODES: &str = "[[node]]\n\
    name = \"n0\"\n\
    id = 0\n\
    initial = true\n\
    [[node]]\n\
    name = \"n4\"\n\
    id = 4\n\
    initial = true\n";

/// The ring of three, and a node that is down.
pub const FOUR: &str = "[[node]]\n\
    name = \"n0\"\n\
    id = 0\n\
    initial = true\n\
    [[node]]\n\
    name = \"n1\"\n\
    id = 1\n\
    initial = true\n\
    [[node]]\n\
    name = \"n3\"\n\
    id = 3\n\
    initial = true\n\
    [[node]]\n\
    name = \"n6\"\n\
    id = 6\n";

/// The ring of three, of which one comes and goes.
const ONE_OF_CHURN: &str = "[[node]]\n\
    name = \"n0\"\n\
    id = 0\n\
    initial = true\n\
    [[node]]\n\
    name = \"n1\"\n\
    id = 1\n\
    initial = true\n\
    churn = true\n\
    [[node]]\n\
    name = \"n3\"\n\
    id = 3\n\
    initial = true\n";

impl Example {
    /// The scenario of the example.
    pub fn scenario(&self, alloc: Global) -> Result<Scenario, ScenarioFault> {
        let text = text_of(alloc, self.settings, self.nodes, self.commands)?;
        read_scenario(alloc, text.as_str().as_bytes(), b"")
    }
}

/// Two lookups at one time.
pub const TWO_LOOKUPS: Example = Example {
    name: "two lookups",
    settings: SETTINGS,
    nodes: THREE,
    commands: "[[command]]\n\
        at_us = 100\n\
        do = \"lookup\"\n\
        node = \"n0\"\n\
        key = 4\n\
        [[command]]\n\
        at_us = 100\n\
        do = \"lookup\"\n\
        node = \"n3\"\n\
        key = 1\n",
    trace: "100 n0 lookup 4\n\
        100 n3 lookup 1\n\
        120 n3 found 1 n1 hops=1 timeouts=0 us=20\n\
        120 n0 found 4 n0 hops=1 timeouts=0 us=20\n\
        200 audit members=3 dead=0 ring=3 ordered=yes principals=3 sufficient=yes\n",
    report: "events 8\n\
        lookups 2\n\
        found 2\n\
        hops-sum 2\n\
        hops-greatest 1\n\
        us-sum 40\n\
        us-least 20\n\
        us-median 20\n\
        us-greatest 20\n\
        audits 1\n",
};

/// The examples in groups of five. A function proves a long table slowly, so each group has its own.
pub fn example_groups() -> [&'static [Example]; 5] {
    [lookups(), crashes(), joins(), repairs(), crossings()]
}

/// Lookups on rings without churn.
const LOOKUPS: [Example; 5] = [
    Example {
        name: "three lookups",
        settings: SETTINGS,
        nodes: THREE,
        commands: "[[command]]\n\
            at_us = 100\n\
            do = \"lookup\"\n\
            node = \"n0\"\n\
            key = 1\n\
            [[command]]\n\
            at_us = 100\n\
            do = \"lookup\"\n\
            node = \"n0\"\n\
            key = 2\n\
            [[command]]\n\
            at_us = 100\n\
            do = \"lookup\"\n\
            node = \"n0\"\n\
            key = 6\n",
        trace: "100 n0 lookup 1\n\
            100 n0 found 1 n1 hops=0 timeouts=0 us=0\n\
            100 n0 lookup 2\n\
            100 n0 lookup 6\n\
            120 n0 found 2 n3 hops=1 timeouts=0 us=20\n\
            120 n0 found 6 n0 hops=1 timeouts=0 us=20\n\
            200 audit members=3 dead=0 ring=3 ordered=yes principals=3 sufficient=yes\n",
        report: "events 9\n\
            lookups 3\n\
            found 3\n\
            hops-sum 2\n\
            hops-greatest 1\n\
            us-sum 40\n\
            us-median 20\n\
            us-greatest 20\n\
            audits 1\n",
    },
    Example {
        name: "the first lookup",
        settings: SETTINGS,
        nodes: THREE,
        commands: "[[command]]\n\
            at_us = 100\n\
            do = \"lookup\"\n\
            node = \"n0\"\n\
            key = 1\n",
        trace: "100 n0 lookup 1\n\
            100 n0 found 1 n1 hops=0 timeouts=0 us=0\n\
            200 audit members=3 dead=0 ring=3 ordered=yes principals=3 sufficient=yes\n",
        report: "events 1\n\
            lookups 1\n\
            found 1\n\
            audits 1\n",
    },
    Example {
        name: "one hop",
        settings: SETTINGS,
        nodes: THREE,
        commands: "[[command]]\n\
            at_us = 100\n\
            do = \"lookup\"\n\
            node = \"n3\"\n\
            key = 1\n",
        trace: "100 n3 lookup 1\n\
            120 n3 found 1 n1 hops=1 timeouts=0 us=20\n\
            200 audit members=3 dead=0 ring=3 ordered=yes principals=3 sufficient=yes\n",
        report: "events 4\n\
            lookups 1\n\
            found 1\n\
            hops-sum 1\n\
            hops-greatest 1\n\
            us-sum 20\n\
            us-least 20\n\
            us-median 20\n\
            us-greatest 20\n\
            audits 1\n",
    },
    Example {
        name: "a latency as long as a window",
        settings: "list = 1\n\
            duration_us = 200\n\
            window_us = 10\n\
            timeout_us = 40\n\
            audit_us = 200\n\
            stabilize_us = 1000\n\
            finger_us = 1000\n",
        nodes: TWO_NODES,
        commands: "[[command]]\n\
            at_us = 100\n\
            do = \"lookup\"\n\
            node = \"n0\"\n\
            key = 5\n",
        trace: "100 n0 lookup 5\n\
            120 n0 found 5 n0 hops=1 timeouts=0 us=20\n\
            200 audit members=2 dead=0 ring=2 ordered=yes principals=2 sufficient=yes\n",
        report: "events 4\n\
            lookups 1\n\
            found 1\n\
            hops-sum 1\n\
            hops-greatest 1\n\
            us-sum 20\n\
            us-least 20\n\
            us-median 20\n\
            us-greatest 20\n\
            audits 1\n",
    },
    Example {
        name: "its own successor",
        settings: "list = 2\n\
            duration_us = 240\n\
            window_us = 10\n\
            timeout_us = 30\n\
            audit_us = 240\n\
            stabilize_us = 100\n\
            finger_us = 1000\n",
        nodes: THREE,
        commands: "[[command]]\n\
            at_us = 50\n\
            do = \"crash\"\n\
            node = \"n1\"\n\
            [[command]]\n\
            at_us = 155\n\
            do = \"crash\"\n\
            node = \"n3\"\n\
            [[command]]\n\
            at_us = 235\n\
            do = \"crash\"\n\
            node = \"n0\"\n",
        trace: "50 n1 crash\n\
            110 n1 drop get-state n0\n\
            130 n0 timeout n1\n\
            155 n3 crash\n\
            160 n1 drop get-list n0\n\
            180 n0 timeout n1\n\
            190 n3 drop notify n0\n\
            210 n3 drop get-state n0\n\
            230 n0 timeout n3\n\
            235 n0 crash\n\
            240 audit members=0 dead=0 ring=0 ordered=yes principals=0 sufficient=no\n",
        report: "events 24\n\
            crashes 3\n\
            drops 4\n\
            timeouts 3\n\
            audits 1\n\
            ringless 1\n\
            insufficient 1\n",
    },
];

fn lookups() -> &'static [Example] {
    &LOOKUPS
}

/// Crashes, and lookups that meet them.
const CRASHES: [Example; 5] = [
    TWO_LOOKUPS,
    Example {
        name: "an audit at a crash",
        settings: "list = 2\n\
            duration_us = 200\n\
            window_us = 10\n\
            timeout_us = 40\n\
            audit_us = 100\n\
            stabilize_us = 1000\n\
            finger_us = 1000\n",
        nodes: THREE,
        commands: "[[command]]\n\
            at_us = 100\n\
            do = \"crash\"\n\
            node = \"n1\"\n",
        trace: "100 audit members=3 dead=0 ring=3 ordered=yes principals=3 sufficient=yes\n\
            100 n1 crash\n\
            200 audit members=2 dead=0 ring=2 ordered=yes principals=2 sufficient=no\n",
        report: "events 1\n\
            crashes 1\n\
            audits 2\n\
            insufficient 1\n",
    },
    Example {
        name: "a silent owner",
        settings: SETTINGS,
        nodes: THREE,
        commands: "[[command]]\n\
            at_us = 50\n\
            do = \"crash\"\n\
            node = \"n1\"\n\
            [[command]]\n\
            at_us = 100\n\
            do = \"lookup\"\n\
            node = \"n0\"\n\
            key = 2\n",
        trace: "50 n1 crash\n\
            100 n0 lookup 2\n\
            110 n1 drop step n0\n\
            140 n0 timeout n1\n\
            140 n0 found 2 n3 hops=0 timeouts=1 us=40\n\
            200 audit members=2 dead=0 ring=2 ordered=yes principals=2 sufficient=no\n",
        report: "events 4\n\
            crashes 1\n\
            drops 1\n\
            timeouts 1\n\
            lookups 1\n\
            found 1\n\
            us-sum 40\n\
            us-least 40\n\
            us-median 40\n\
            us-greatest 40\n\
            audits 1\n\
            insufficient 1\n",
    },
    Example {
        name: "a late reply",
        settings: "list = 2\n\
            duration_us = 200\n\
            window_us = 10\n\
            timeout_us = 15\n\
            audit_us = 200\n\
            stabilize_us = 1000\n\
            finger_us = 1000\n",
        nodes: THREE,
        commands: "[[command]]\n\
            at_us = 100\n\
            do = \"lookup\"\n\
            node = \"n3\"\n\
            key = 1\n",
        trace: "100 n3 lookup 1\n\
            115 n3 timeout n0\n\
            115 n3 found 1 n1 hops=0 timeouts=1 us=15\n\
            120 n3 late step-reply n0\n\
            200 audit members=3 dead=0 ring=3 ordered=yes principals=3 sufficient=yes\n",
        report: "events 4\n\
            late 1\n\
            timeouts 1\n\
            lookups 1\n\
            found 1\n\
            us-sum 15\n\
            us-least 15\n\
            us-median 15\n\
            us-greatest 15\n\
            audits 1\n",
    },
    Example {
        name: "a crash and a join at one instant",
        settings: SETTINGS,
        nodes: THREE,
        commands: "[[command]]\n\
            at_us = 100\n\
            do = \"lookup\"\n\
            node = \"n3\"\n\
            key = 1\n\
            [[command]]\n\
            at_us = 115\n\
            do = \"crash\"\n\
            node = \"n3\"\n\
            [[command]]\n\
            at_us = 115\n\
            do = \"join\"\n\
            node = \"n3\"\n\
            via = \"n0\"\n",
        trace: "100 n3 lookup 1\n\
            115 n3 crash\n\
            115 n3 join n0\n\
            120 n3 late step-reply n0\n\
            200 audit members=2 dead=0 ring=2 ordered=yes principals=2 sufficient=no\n",
        report: "events 17\n\
            crashes 1\n\
            late 1\n\
            lookups 1\n\
            unfinished 1\n\
            audits 1\n\
            insufficient 1\n",
    },
];

fn crashes() -> &'static [Example] {
    &CRASHES
}

/// Joins and churn.
const JOINS: [Example; 5] = [
    Example {
        name: "nothing to do",
        settings: SETTINGS,
        nodes: THREE,
        commands: "",
        trace: "200 audit members=3 dead=0 ring=3 ordered=yes principals=3 sufficient=yes\n",
        report: "audits 1\n",
    },
    Example {
        name: "a join",
        settings: SETTINGS,
        nodes: FOUR,
        commands: "[[command]]\n\
            at_us = 100\n\
            do = \"join\"\n\
            node = \"n6\"\n\
            via = \"n0\"\n",
        trace: "100 n6 join n0\n\
            160 n6 member n3\n\
            200 audit members=4 dead=0 ring=3 ordered=yes principals=3 sufficient=yes\n",
        report: "events 10\n\
            members 1\n\
            audits 1\n",
    },
    Example {
        name: "a join and its repair",
        settings: "list = 2\n\
            duration_us = 400\n\
            window_us = 10\n\
            timeout_us = 40\n\
            audit_us = 400\n\
            stabilize_us = 170\n\
            finger_us = 1000\n",
        nodes: FOUR,
        commands: "[[command]]\n\
            at_us = 100\n\
            do = \"join\"\n\
            node = \"n6\"\n\
            via = \"n0\"\n",
        trace: "100 n6 join n0\n\
            160 n6 member n3\n\
            400 audit members=4 dead=0 ring=4 ordered=yes principals=3 sufficient=yes\n",
        report: "events 47\n\
            members 1\n\
            audits 1\n",
    },
    Example {
        name: "one cycle of churn",
        settings: "list = 2\n\
            duration_us = 160\n\
            window_us = 10\n\
            timeout_us = 40\n\
            audit_us = 160\n\
            stabilize_us = 1000\n\
            finger_us = 1000\n\
            churn = { life_min_us = 100, life_max_us = 100, down_min_us = 50, down_max_us = 50 }\n",
        nodes: ONE_OF_CHURN,
        commands: "",
        trace: "100 n1 crash\n\
            150 n1 join n0\n\
            160 audit members=2 dead=0 ring=2 ordered=yes principals=2 sufficient=no\n",
        report: "events 2\n\
            crashes 1\n\
            audits 1\n\
            insufficient 1\n",
    },
    Example {
        name: "a node is stranded",
        settings: "list = 1\n\
            duration_us = 200\n\
            window_us = 10\n\
            timeout_us = 40\n\
            audit_us = 200\n\
            stabilize_us = 150\n\
            finger_us = 1000\n",
        nodes: TWO_NODES,
        commands: "[[command]]\n\
            at_us = 50\n\
            do = \"crash\"\n\
            node = \"n4\"\n\
            [[command]]\n\
            at_us = 100\n\
            do = \"lookup\"\n\
            node = \"n0\"\n\
            key = 5\n",
        trace: "50 n4 crash\n\
            100 n0 lookup 5\n\
            110 n4 drop step n0\n\
            140 n0 timeout n4\n\
            140 n0 lost 5 hops=0 timeouts=1 us=40\n\
            160 n4 drop get-state n0\n\
            190 n0 timeout n4\n\
            190 n0 stranded n4\n\
            200 audit members=0 dead=0 ring=0 ordered=yes principals=0 sufficient=no\n",
        report: "events 8\n\
            crashes 1\n\
            stranded 1\n\
            drops 2\n\
            timeouts 2\n\
            lookups 1\n\
            lost 1\n\
            audits 1\n\
            ringless 1\n\
            insufficient 1\n",
    },
];

fn joins() -> &'static [Example] {
    &JOINS
}

/// Joins that fail, and lists and fingers that are repaired.
const REPAIRS: [Example; 5] = [
    Example {
        name: "a join that fails eight times",
        settings: "list = 2\n\
            duration_us = 500\n\
            window_us = 10\n\
            timeout_us = 40\n\
            audit_us = 500\n\
            stabilize_us = 1000\n\
            finger_us = 1000\n",
        nodes: FOUR,
        commands: "[[command]]\n\
            at_us = 50\n\
            do = \"crash\"\n\
            node = \"n1\"\n\
            [[command]]\n\
            at_us = 100\n\
            do = \"join\"\n\
            node = \"n6\"\n\
            via = \"n1\"\n",
        trace: "50 n1 crash\n\
            100 n6 join n1\n\
            110 n1 drop step n6\n\
            140 n6 timeout n1\n\
            150 n1 drop step n6\n\
            180 n6 timeout n1\n\
            190 n1 drop step n6\n\
            220 n6 timeout n1\n\
            230 n1 drop step n6\n\
            260 n6 timeout n1\n\
            270 n1 drop step n6\n\
            300 n6 timeout n1\n\
            310 n1 drop step n6\n\
            340 n6 timeout n1\n\
            350 n1 drop step n6\n\
            380 n6 timeout n1\n\
            390 n1 drop step n6\n\
            420 n6 timeout n1\n\
            420 n6 join-failed\n\
            500 audit members=2 dead=0 ring=2 ordered=yes principals=2 sufficient=no\n",
        report: "events 18\n\
            join-failed 1\n\
            crashes 1\n\
            drops 8\n\
            timeouts 8\n\
            audits 1\n\
            insufficient 1\n",
    },
    Example {
        name: "a second crash",
        settings: SETTINGS,
        nodes: THREE,
        commands: "[[command]]\n\
            at_us = 50\n\
            do = \"crash\"\n\
            node = \"n1\"\n\
            [[command]]\n\
            at_us = 50\n\
            do = \"crash\"\n\
            node = \"n1\"\n",
        trace: "50 n1 crash\n\
            50 n1 ignored crash\n\
            200 audit members=2 dead=0 ring=2 ordered=yes principals=2 sufficient=no\n",
        report: "events 2\n\
            crashes 1\n\
            ignored 1\n\
            audits 1\n\
            insufficient 1\n",
    },
    Example {
        name: "eight events",
        settings: "list = 2\n\
            duration_us = 200\n\
            window_us = 10\n\
            timeout_us = 40\n\
            audit_us = 200\n\
            stabilize_us = 1000\n\
            finger_us = 1000\n\
            max_events = 8\n",
        nodes: THREE,
        commands: "[[command]]\n\
            at_us = 100\n\
            do = \"lookup\"\n\
            node = \"n0\"\n\
            key = 4\n\
            [[command]]\n\
            at_us = 100\n\
            do = \"lookup\"\n\
            node = \"n3\"\n\
            key = 1\n",
        trace: "100 n0 lookup 4\n\
            100 n3 lookup 1\n\
            120 n3 found 1 n1 hops=1 timeouts=0 us=20\n\
            120 n0 found 4 n0 hops=1 timeouts=0 us=20\n\
            200 audit members=3 dead=0 ring=3 ordered=yes principals=3 sufficient=yes\n",
        report: "events 8\n\
            lookups 2\n\
            found 2\n\
            hops-sum 2\n\
            hops-greatest 1\n\
            us-sum 40\n\
            us-least 20\n\
            us-median 20\n\
            us-greatest 20\n\
            audits 1\n",
    },
    Example {
        name: "a finger that crashed",
        settings: "list = 2\n\
            duration_us = 200\n\
            window_us = 10\n\
            timeout_us = 40\n\
            audit_us = 200\n\
            stabilize_us = 1000\n\
            finger_us = 60\n",
        nodes: THREE,
        commands: "[[command]]\n\
            at_us = 50\n\
            do = \"crash\"\n\
            node = \"n1\"\n",
        trace: "50 n1 crash\n\
            70 n1 drop step n0\n\
            100 n0 timeout n1\n\
            190 n1 drop step n0\n\
            200 audit members=2 dead=0 ring=2 ordered=yes principals=2 sufficient=no\n",
        report: "events 14\n\
            crashes 1\n\
            drops 2\n\
            timeouts 1\n\
            audits 1\n\
            insufficient 1\n",
    },
    Example {
        name: "lookups of one hop and of two",
        settings: SETTINGS,
        nodes: THREE,
        commands: "[[command]]\n\
            at_us = 100\n\
            do = \"lookup\"\n\
            node = \"n0\"\n\
            key = 4\n\
            [[command]]\n\
            at_us = 100\n\
            do = \"lookup\"\n\
            node = \"n3\"\n\
            key = 2\n",
        trace: "100 n0 lookup 4\n\
            100 n3 lookup 2\n\
            120 n0 found 4 n0 hops=1 timeouts=0 us=20\n\
            140 n3 found 2 n3 hops=2 timeouts=0 us=40\n\
            200 audit members=3 dead=0 ring=3 ordered=yes principals=3 sufficient=yes\n",
        report: "events 11\n\
            lookups 2\n\
            found 2\n\
            hops-sum 3\n\
            hops-greatest 2\n\
            us-sum 60\n\
            us-least 20\n\
            us-median 20\n\
            us-greatest 40\n\
            audits 1\n",
    },
];

fn repairs() -> &'static [Example] {
    &REPAIRS
}

/// Commands that are ignored, and messages that meet a crash.
const CROSSINGS: [Example; 5] = [
    // n1 is down, and n0 is a member already.
    Example {
        name: "commands that are ignored",
        settings: SETTINGS,
        nodes: THREE,
        commands: "[[command]]\n\
            at_us = 50\n\
            do = \"crash\"\n\
            node = \"n1\"\n\
            [[command]]\n\
            at_us = 60\n\
            do = \"lookup\"\n\
            node = \"n1\"\n\
            key = 4\n\
            [[command]]\n\
            at_us = 70\n\
            do = \"join\"\n\
            node = \"n0\"\n\
            via = \"n3\"\n",
        trace: "50 n1 crash\n\
            60 n1 ignored lookup\n\
            70 n0 ignored join\n\
            200 audit members=2 dead=0 ring=2 ordered=yes principals=2 sufficient=no\n",
        report: "events 3\n\
            crashes 1\n\
            ignored 2\n\
            audits 1\n\
            insufficient 1\n",
    },
    // n6 crashes before the list of n3 comes, which would make it a member.
    Example {
        name: "a join cut short by a crash",
        settings: "list = 2\n\
            duration_us = 300\n\
            window_us = 10\n\
            timeout_us = 40\n\
            audit_us = 300\n\
            stabilize_us = 70\n\
            finger_us = 1000\n",
        nodes: FOUR,
        commands: "[[command]]\n\
            at_us = 50\n\
            do = \"join\"\n\
            node = \"n6\"\n\
            via = \"n0\"\n\
            [[command]]\n\
            at_us = 105\n\
            do = \"crash\"\n\
            node = \"n6\"\n",
        trace: "50 n6 join n0\n\
            105 n6 crash\n\
            110 n6 drop list-reply n3\n\
            300 audit members=3 dead=0 ring=3 ordered=yes principals=3 sufficient=yes\n",
        report: "events 63\n\
            crashes 1\n\
            drops 1\n\
            audits 1\n",
    },
    // n6 has asked n0 for its state, n3 asks n6 for its list, and n0 pings n6 because n3 notifies n0.
    Example {
        name: "messages to a node that crashed",
        settings: "list = 2\n\
            duration_us = 300\n\
            window_us = 10\n\
            timeout_us = 40\n\
            audit_us = 300\n\
            stabilize_us = 70\n\
            finger_us = 1000\n",
        nodes: FOUR,
        commands: "[[command]]\n\
            at_us = 50\n\
            do = \"join\"\n\
            node = \"n6\"\n\
            via = \"n0\"\n\
            [[command]]\n\
            at_us = 195\n\
            do = \"crash\"\n\
            node = \"n6\"\n",
        trace: "50 n6 join n0\n\
            110 n6 member n3\n\
            195 n6 crash\n\
            210 n6 drop state-reply n0\n\
            240 n6 drop get-list n3\n\
            270 n3 timeout n6\n\
            290 n6 drop ping n0\n\
            300 audit members=3 dead=0 ring=3 ordered=yes principals=3 sufficient=yes\n",
        report: "events 78\n\
            members 1\n\
            crashes 1\n\
            drops 3\n\
            timeouts 1\n\
            audits 1\n",
    },
    // n3 notifies n0, whose predecessor is n6 by then. So n0 pings n6, and crashes before the pong comes.
    Example {
        name: "a pong to a node that crashed",
        settings: "list = 2\n\
            duration_us = 300\n\
            window_us = 10\n\
            timeout_us = 40\n\
            audit_us = 300\n\
            stabilize_us = 120\n\
            finger_us = 1000\n",
        nodes: FOUR,
        commands: "[[command]]\n\
            at_us = 100\n\
            do = \"join\"\n\
            node = \"n6\"\n\
            via = \"n0\"\n\
            [[command]]\n\
            at_us = 275\n\
            do = \"crash\"\n\
            node = \"n0\"\n",
        trace: "100 n6 join n0\n\
            160 n6 member n3\n\
            275 n0 crash\n\
            290 n0 drop pong n6\n\
            300 audit members=3 dead=0 ring=2 ordered=yes principals=2 sufficient=no\n",
        report: "events 48\n\
            members 1\n\
            crashes 1\n\
            drops 1\n\
            audits 1\n\
            insufficient 1\n",
    },
    // Two timeouts and six useless replies are eight failures: the replies of n0 come every 20 us from 240 on.
    Example {
        name: "a join that finds no way on",
        settings: "list = 2\n\
            duration_us = 500\n\
            window_us = 10\n\
            timeout_us = 40\n\
            audit_us = 500\n\
            stabilize_us = 1000\n\
            finger_us = 1000\n",
        nodes: FOUR,
        commands: "[[command]]\n\
            at_us = 50\n\
            do = \"crash\"\n\
            node = \"n1\"\n\
            [[command]]\n\
            at_us = 50\n\
            do = \"crash\"\n\
            node = \"n3\"\n\
            [[command]]\n\
            at_us = 100\n\
            do = \"join\"\n\
            node = \"n6\"\n\
            via = \"n0\"\n",
        trace: "50 n1 crash\n\
            50 n3 crash\n\
            100 n6 join n0\n\
            130 n3 drop step n6\n\
            160 n6 timeout n3\n\
            190 n1 drop step n6\n\
            220 n6 timeout n1\n\
            340 n6 join-failed\n\
            500 audit members=1 dead=1 ring=0 ordered=yes principals=1 sufficient=no\n",
        report: "events 31\n\
            join-failed 1\n\
            crashes 2\n\
            drops 2\n\
            timeouts 2\n\
            audits 1\n\
            ringless 1\n\
            insufficient 1\n",
    },
];

fn crossings() -> &'static [Example] {
    &CROSSINGS
}
