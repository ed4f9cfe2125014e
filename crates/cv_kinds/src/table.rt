//! The table of kinds: a line for each, with its name, its ports, its parameters and its slots.

ghost use Rattle.std.specs.Prelude.{◌≡◌, map};
ghost use Rattle.cv_kinds.specs.Table.{line_of, flow_line, calc_line, taking};

use crate::kind::Kind;
use cv_calc::CalcKind;
use cv_flow::FlowKind;

/// What a token has to be.
#[derive(Debug, Clone, Copy, PartialEq, Eq)]
pub enum Sort {
    /// Any token.
    Any,
    /// True or false.
    Truth,
    /// A number of 64 bits.
    Int,
    /// Such a number that is not below this one.
    AtLeast(i64),
    /// Such a number from the first to the second.
    Within(i64, i64),
    /// Milliseconds, from 0 to 2,147,483,647. A script gives seconds, as a number or a fraction of at most three decimals.
    Duration,
    Text,
    List,
    /// One of the texts `=`, `!=`, `<`, `<=`, `>` and `>=`.
    Operator,
    /// A text, or a number of 64 bits.
    TextOrInt,
}

/// What stands where an argument is not given.
#[derive(Debug, Clone, Copy, PartialEq, Eq)]
pub enum Preset {
    /// Nothing: the argument has to be given.
    Required,
    Null,
    False,
    Int(i64),
    EmptyText,
}

/// A parameter of a kind.
#[derive(Debug, Clone, Copy)]
pub struct Param {
    /// Its name, as scripts write it.
    pub name: &'static str,
    /// What the argument has to be.
    pub sort: Sort,
    /// What it is where none is given.
    pub preset: Preset,
}

/// What a slot of a kind's state is.
#[derive(Debug, Clone, Copy, PartialEq, Eq)]
pub enum Slot {
    /// Of this sort.
    Plain(Sort),
    /// A number of 64 bits, or null past the last one.
    Next,
    /// A place in the list that is the first argument, or its length.
    Place,
    /// A number from 0 to one less than the first argument.
    Round,
}

/// The line of a kind.
#[derive(Debug, Clone, Copy)]
pub struct Line {
    /// The name, as scripts write it.
    pub name: &'static str,
    /// The names of the inports, in the order of their numbers.
    pub inports: &'static [&'static str],
    /// The names of the outports.
    pub outports: &'static [&'static str],
    /// The parameters, in the order of the arguments.
    pub params: &'static [Param],
    /// The slots of the state.
    pub slots: &'static [Slot],
}

impl Kind {
    /// The line of the kind.
    #[tactic(auto, unfolding(crate::specs::Table::line_of))]
    pub fn line(self) -> Line
        ensures name { result.name.now ≡ (line_of self).name }
        ensures inports { map (λ text. text.now) result.inports.now ≡ (line_of self).inports }
        ensures outports { map (λ text. text.now) result.outports.now ≡ (line_of self).outports }
        ensures params { map taking result.params.now ≡ (line_of self).params }
        ensures slots { result.slots.now ≡ (line_of self).slots }
    {
        match self {
            Kind::Flow(kind) => Kind::flow_line(kind),
            Kind::Calc(kind) => Kind::calc_line(kind),
        }
    }

    fn flow_line(kind: FlowKind) -> Line
        ensures name { result.name.now ≡ (flow_line kind).name }
        ensures inports { map (λ text. text.now) result.inports.now ≡ (flow_line kind).inports }
        ensures outports { map (λ text. text.now) result.outports.now ≡ (flow_line kind).outports }
        ensures params { map taking result.params.now ≡ (flow_line kind).params }
        ensures slots { result.slots.now ≡ (flow_line kind).slots }
    {
        match kind {
            FlowKind::Constant => Line {
                name: "std.Constant",
                inports: &[],
                outports: &["token"],
                params: &[
                    Param {
                        name: "data",
                        sort: Sort::Any,
                        preset: Preset::Required,
                    },
                    Param {
                        name: "n",
                        sort: Sort::AtLeast(-1),
                        preset: Preset::Int(1),
                    },
                ],
                slots: &[Slot::Plain(Sort::AtLeast(-1))],
            },
            FlowKind::Counter => Line {
                name: "std.Counter",
                inports: &[],
                outports: &["integer"],
                params: &[Param {
                    name: "start",
                    sort: Sort::Int,
                    preset: Preset::Int(1),
                }],
                slots: &[Slot::Next],
            },
            FlowKind::CountTimer => Line {
                name: "std.CountTimer",
                inports: &[],
                outports: &["integer"],
                params: &[
                    Param {
                        name: "sleep",
                        sort: Sort::Duration,
                        preset: Preset::Int(1000),
                    },
                    Param {
                        name: "start",
                        sort: Sort::Int,
                        preset: Preset::Int(1),
                    },
                    Param {
                        name: "steps",
                        sort: Sort::AtLeast(-1),
                        preset: Preset::Int(-1),
                    },
                ],
                slots: &[Slot::Next, Slot::Plain(Sort::AtLeast(-1))],
            },
            FlowKind::Identity => Line {
                name: "std.Identity",
                inports: &["token"],
                outports: &["token"],
                params: &[Param {
                    name: "dump",
                    sort: Sort::Truth,
                    preset: Preset::False,
                }],
                slots: &[],
            },
            FlowKind::Sequence => Line {
                name: "std.Sequence",
                inports: &[],
                outports: &["token"],
                params: &[Param {
                    name: "data",
                    sort: Sort::List,
                    preset: Preset::Required,
                }],
                slots: &[Slot::Place],
            },
            FlowKind::Trigger => Line {
                name: "std.Trigger",
                inports: &[],
                outports: &["data"],
                params: &[
                    Param {
                        name: "tick",
                        sort: Sort::Duration,
                        preset: Preset::Int(1000),
                    },
                    Param {
                        name: "data",
                        sort: Sort::Any,
                        preset: Preset::Null,
                    },
                ],
                slots: &[],
            },
            FlowKind::Delay => Line {
                name: "std.Delay",
                inports: &["token"],
                outports: &["token"],
                params: &[Param {
                    name: "delay",
                    sort: Sort::Duration,
                    preset: Preset::Int(1000),
                }],
                slots: &[Slot::Plain(Sort::Truth), Slot::Plain(Sort::Any)],
            },
            FlowKind::Sum => Line {
                name: "std.Sum",
                inports: &["integer"],
                outports: &["integer"],
                params: &[],
                slots: &[Slot::Plain(Sort::Int)],
            },
            FlowKind::Tally => Line {
                name: "std.Tally",
                inports: &["token"],
                outports: &["integer"],
                params: &[],
                slots: &[Slot::Plain(Sort::AtLeast(0))],
            },
            FlowKind::Print => Line {
                name: "io.Print",
                inports: &["token"],
                outports: &[],
                params: &[],
                slots: &[],
            },
            FlowKind::Terminator => Line {
                name: "flow.Terminator",
                inports: &["void"],
                outports: &[],
                params: &[],
                slots: &[],
            },
            FlowKind::Init => Line {
                name: "flow.Init",
                inports: &["in"],
                outports: &["out"],
                params: &[Param {
                    name: "data",
                    sort: Sort::Any,
                    preset: Preset::Required,
                }],
                slots: &[Slot::Plain(Sort::Truth)],
            },
            FlowKind::Join => Line {
                name: "flow.Join",
                inports: &["token_1", "token_2"],
                outports: &["token"],
                params: &[],
                slots: &[],
            },
            FlowKind::Alternate2 => Line {
                name: "flow.Alternate2",
                inports: &["token_1", "token_2"],
                outports: &["token"],
                params: &[],
                slots: &[Slot::Plain(Sort::Within(0, 1))],
            },
            FlowKind::Alternate3 => Line {
                name: "flow.Alternate3",
                inports: &["token_1", "token_2", "token_3"],
                outports: &["token"],
                params: &[],
                slots: &[Slot::Plain(Sort::Within(0, 2))],
            },
            FlowKind::Dealternate2 => Line {
                name: "flow.Dealternate2",
                inports: &["token"],
                outports: &["token_1", "token_2"],
                params: &[],
                slots: &[Slot::Plain(Sort::Within(0, 1))],
            },
            FlowKind::Select => Line {
                name: "flow.Select",
                inports: &["select", "data"],
                outports: &["case_true", "case_false"],
                params: &[],
                slots: &[],
            },
            FlowKind::Switch => Line {
                name: "flow.Switch",
                inports: &["switch", "a", "b"],
                outports: &["data"],
                params: &[],
                slots: &[],
            },
            FlowKind::Batch => Line {
                name: "flow.Batch",
                inports: &["token"],
                outports: &["list"],
                params: &[Param {
                    name: "n",
                    sort: Sort::Within(1, 64),
                    preset: Preset::Int(2),
                }],
                slots: &[],
            },
            FlowKind::Unbatch => Line {
                name: "flow.Unbatch",
                inports: &["list"],
                outports: &["token"],
                params: &[],
                slots: &[Slot::Plain(Sort::List)],
            },
            FlowKind::Take => Line {
                name: "flow.Take",
                inports: &["token"],
                outports: &["token"],
                params: &[Param {
                    name: "n",
                    sort: Sort::AtLeast(0),
                    preset: Preset::Required,
                }],
                slots: &[Slot::Plain(Sort::AtLeast(0))],
            },
            FlowKind::Skip => Line {
                name: "flow.Skip",
                inports: &["token"],
                outports: &["token"],
                params: &[Param {
                    name: "n",
                    sort: Sort::AtLeast(0),
                    preset: Preset::Required,
                }],
                slots: &[Slot::Plain(Sort::AtLeast(0))],
            },
            FlowKind::Every => Line {
                name: "flow.Every",
                inports: &["token"],
                outports: &["token"],
                params: &[Param {
                    name: "n",
                    sort: Sort::AtLeast(1),
                    preset: Preset::Required,
                }],
                slots: &[Slot::Round],
            },
            FlowKind::Valve => Line {
                name: "flow.Valve",
                inports: &["open", "token"],
                outports: &["token"],
                params: &[],
                slots: &[Slot::Plain(Sort::Truth)],
            },
            FlowKind::Zip => Line {
                name: "flow.Zip",
                inports: &["a", "b"],
                outports: &["pair"],
                params: &[],
                slots: &[],
            },
            FlowKind::Unzip => Line {
                name: "flow.Unzip",
                inports: &["pair"],
                outports: &["a", "b"],
                params: &[],
                slots: &[],
            },
            FlowKind::Change => Line {
                name: "flow.Change",
                inports: &["token"],
                outports: &["token"],
                params: &[],
                slots: &[Slot::Plain(Sort::Truth), Slot::Plain(Sort::Any)],
            },
        }
    }

    fn calc_line(kind: CalcKind) -> Line
        ensures name { result.name.now ≡ (calc_line kind).name }
        ensures inports { map (λ text. text.now) result.inports.now ≡ (calc_line kind).inports }
        ensures outports { map (λ text. text.now) result.outports.now ≡ (calc_line kind).outports }
        ensures params { map taking result.params.now ≡ (calc_line kind).params }
        ensures slots { result.slots.now ≡ (calc_line kind).slots }
    {
        match kind {
            CalcKind::Add => Line {
                name: "math.Add",
                inports: &["a", "b"],
                outports: &["result"],
                params: &[],
                slots: &[],
            },
            CalcKind::Subtract => Line {
                name: "math.Subtract",
                inports: &["a", "b"],
                outports: &["result"],
                params: &[],
                slots: &[],
            },
            CalcKind::Multiply => Line {
                name: "math.Multiply",
                inports: &["a", "b"],
                outports: &["result"],
                params: &[],
                slots: &[],
            },
            CalcKind::Divide => Line {
                name: "math.Divide",
                inports: &["a", "b"],
                outports: &["result"],
                params: &[],
                slots: &[],
            },
            CalcKind::Modulo => Line {
                name: "math.Modulo",
                inports: &["a", "b"],
                outports: &["result"],
                params: &[],
                slots: &[],
            },
            CalcKind::Compare => Line {
                name: "math.Compare",
                inports: &["a", "b"],
                outports: &["result"],
                params: &[Param {
                    name: "op",
                    sort: Sort::Operator,
                    preset: Preset::Required,
                }],
                slots: &[],
            },
            CalcKind::Concat => Line {
                name: "text.Concat",
                inports: &["a", "b"],
                outports: &["text"],
                params: &[],
                slots: &[],
            },
            CalcKind::Length => Line {
                name: "text.Length",
                inports: &["text"],
                outports: &["integer"],
                params: &[],
                slots: &[],
            },
            CalcKind::Prefix => Line {
                name: "text.Prefix",
                inports: &["text"],
                outports: &["text"],
                params: &[Param {
                    name: "prefix",
                    sort: Sort::Text,
                    preset: Preset::EmptyText,
                }],
                slots: &[],
            },
            CalcKind::JsonText => Line {
                name: "json.Text",
                inports: &["token"],
                outports: &["text"],
                params: &[],
                slots: &[],
            },
            CalcKind::JsonParse => Line {
                name: "json.Parse",
                inports: &["text"],
                outports: &["token"],
                params: &[],
                slots: &[],
            },
            CalcKind::JsonGet => Line {
                name: "json.Get",
                inports: &["container"],
                outports: &["value"],
                params: &[Param {
                    name: "key",
                    sort: Sort::TextOrInt,
                    preset: Preset::Required,
                }],
                slots: &[],
            },
            CalcKind::Not => Line {
                name: "logic.Not",
                inports: &["a"],
                outports: &["result"],
                params: &[],
                slots: &[],
            },
        }
    }
}
