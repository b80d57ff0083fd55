ghost use Rattle.std.specs.Prelude.{◌≡◌, ◌<◌, IfErr, IfOk, OnOk, length, option_map};
ghost use Rattle.net_model.specs.Wires.{first_at, firsts_from, inputs_of, part_number, parts_of, place_of, roles_of, wire_at};
ghost use Rattle.net_model.specs.Validity.{IsValid};
ghost use Rattle.net_model.specs.Smooth.{IsFirstRough, IsSmooth};
ghost use Rattle.net_model.specs.declared.network.NetRefusal.TheVariants.{At, OutOfMemory};

use crate::draft_checks::{Fault, check_draft};
use crate::naming::Name;
use crate::numbering::{first_parts, input_numbers, name_map, part_list, place_of_role};
use crate::smoothness::first_rough;
use crate::wires::{Part, PartNo, Role, Wire, WireNo};
use ifx_curves::Table;
use ifx_search::Axis;
use indexmap::IndexMap;
use std::alloc::{AllocError, Global};
use std::marker::Model;

/// A fault of a network or of its text, in the order in which one line is tested.
#[derive(Clone, Copy, Debug, PartialEq, Eq)]
pub enum NetKind {
    /// The first line with words isn't `net 1`.
    NoHead,
    /// The first word is no keyword, or the line has another form than its keyword's.
    BadLine,
    /// The word in the place of the name isn't one.
    BadName,
    /// The name is defined above, or the output is named above.
    Repeated,
    /// The type word is none, or of a sort that the line doesn't take.
    BadType,
    /// No such routine.
    UnknownRoutine,
    /// The routine takes another number of arguments.
    BadCount,
    /// A name that is used is defined nowhere.
    UnknownName,
    /// A name that is used is defined here or later.
    LaterWire,
    /// A name that is used is of another kind or type than the routine takes, or the wire is of another
    /// than it gives.
    TypeDiffers,
    /// A word in the place of a number isn't one.
    BadNumber,
    /// A number is outside its range or type, or the lower end of a range is above the upper one.
    OutOfRange,
    /// There are more than 512 wires, 64 axes or 64 tables, or another limit is passed.
    TooMany,
    /// There is no input or no output.
    Missing,
    /// The routine, or the keyword of the line, isn't built yet; tested right after `UnknownRoutine`.
    NotBuilt,
}

/// Why a draft gives no network.
#[derive(Clone, Copy, Debug, PartialEq, Eq)]
pub enum NetRefusal {
    /// The draft isn't valid: the wire that breaks a condition (the number of wires for a fault of no
    /// wire), and the fault.
    At { wire: u32, kind: NetKind },
    OutOfMemory,
}

impl From<AllocError> for NetRefusal {
    ghost from_gives = { λ _ refusal. refusal ≡ OutOfMemory };

    fn from(_error: AllocError) -> NetRefusal {
        NetRefusal::OutOfMemory
    }
}

impl From<Fault> for NetRefusal {
    ghost from_gives = { λ fault refusal. refusal ≡ At fault.wire fault.kind };

    fn from(fault: Fault) -> NetRefusal {
        let Fault { wire, kind } = fault;
        NetRefusal::At { wire, kind }
    }
}

/// What a network is made of, not tested yet: axes and tables with their names, wires, and outputs.
#[derive(Drop)]
pub struct Draft {
    pub axes: Vec<(Name, Axis)>,
    pub tables: Vec<(Name, Table)>,
    pub wires: Vec<Wire>,
    pub outs: Vec<WireNo>,
}

/// A valid network, seen as its axes and tables, its wires and its outputs.
#[derive(Drop)]
pub struct Network {
    axes: Vec<(Name, Axis)>,
    tables: Vec<(Name, Table)>,
    wires: Vec<Wire>,
    inputs: Vec<WireNo>,
    outs: Vec<WireNo>,
    parts: Vec<Part>,
    firsts: Vec<PartNo>,
    names: IndexMap<Vec<u8>, WireNo>,
}

impl Model for Network {
    ghost use Rattle.std.specs.Prelude.{◌≡◌};
    ghost use Rattle.net_model.specs.Wires.{NetData, firsts_from, inputs_of, parts_of};
    ghost use Rattle.net_model.specs.Validity.{IsValid};
    ghost use Rattle.net_model.specs.NameMap.{HasNumbersOf};

    ghost Value = { NetData };

    ghost view = { λ n. record { axes = n.axes.items; tables = n.tables.items; wires = n.wires.items; outs = n.outs.items } };

    ghost invariant = { λ n. IsValid (record { axes = n.axes.items; tables = n.tables.items; wires = n.wires.items; outs = n.outs.items })
        × (n.inputs.items ≡ inputs_of n.wires.items)
        × (n.parts.items ≡ parts_of n.wires.items)
        × (n.firsts.items ≡ firsts_from 0 n.wires.items)
        × HasNumbersOf n.wires.items n.names };
}

impl Network {
    ghost use Rattle.net_model.specs.Drafts.{data_of};
    ghost use Rattle.net_model.specs.Refusals.{IsRefusedFor};

    /// The network of a draft, if the draft is valid. A refusal names the first wire that breaks a
    /// condition and the first that it breaks, in the order of `NetKind`; a fault of no wire is told
    /// where no wire has one, and has the number of wires.
    #[tactic(auto, using(crate::proofs::TestedDrafts::valid_if_tested))]
    pub fn new(alloc: Global, draft: Draft) -> Result<Network, NetRefusal>
        ensures made { IfOk result (λ net. net ≡ data_of draft) }
        ensures valid { IfOk result IsValid }
        ensures refused { IfErr result (IsRefusedFor (data_of draft)) }
    {
        check_draft(&draft)?;
        Ok(Network::of_valid(alloc, draft)?)
    }

    /// The network of a draft that is known to be valid, with nothing tested.
    pub fn of_valid(alloc: Global, draft: Draft) -> Result<Network, AllocError>
        requires { IsValid (data_of draft) }
        ensures { IfOk result (λ net. net ≡ data_of draft) }
    {
        let inputs = input_numbers(alloc, &draft.wires)?;
        let parts = part_list(alloc, &draft.wires)?;
        let firsts = first_parts(alloc, &draft.wires)?;
        let names = name_map(alloc, &draft.wires)?;
        Ok(Network {
            axes: draft.axes,
            tables: draft.tables,
            wires: draft.wires,
            inputs,
            outs: draft.outs,
            parts,
            firsts,
            names,
        })
    }

    /// The axes, each with its name, in the order of the network's text.
    pub fn axes(&self) -> &[(Name, Axis)]
        ensures axes { result.now ≡ self.now.axes }
        ensures valid { IsValid self.now }
    {
        self.axes.as_slice()
    }

    /// The tables, likewise.
    pub fn tables(&self) -> &[(Name, Table)]
        ensures tables { result.now ≡ self.now.tables }
        ensures valid { IsValid self.now }
    {
        self.tables.as_slice()
    }

    /// The wires, in the order of the network's text.
    pub fn wires(&self) -> &[Wire]
        ensures wires { result.now ≡ self.now.wires }
        ensures valid { IsValid self.now }
    {
        self.wires.as_slice()
    }

    /// The wires that are inputs, in the order of the wires.
    pub fn inputs(&self) -> &[WireNo]
        ensures inputs { result.now ≡ inputs_of self.now.wires }
        ensures valid { IsValid self.now }
    {
        self.inputs.as_slice()
    }

    /// The wire of a name; None exactly where no wire has it.
    pub fn find(&self, name: &[u8]) -> Option<WireNo>
        ensures { result ≡ option_map (λ n. record { 0 = n }) (place_of self.now.wires name.now) }
    {
        self.names.get(name).copied()
    }

    /// The outputs, in the order of printing.
    pub fn outs(&self) -> &[WireNo]
        ensures outs { result.now ≡ self.now.outs }
        ensures valid { IsValid self.now }
    {
        self.outs.as_slice()
    }

    /// The parts, in the order of the wires.
    pub fn parts(&self) -> &[Part]
        ensures parts { result.now ≡ parts_of self.now.wires }
        ensures valid { IsValid self.now }
    {
        self.parts.as_slice()
    }

    /// The number of a part of a wire, and None where the wire has no such part.
    pub fn part_of(&self, w: WireNo, role: Role) -> Option<PartNo>
        requires { w.0 < length self.now.wires }
        ensures { result ≡ option_map (λ n. record { 0 = n }) (part_number self.now.wires w.0 role) }
    {
        let place = place_of_role(self.roles(w), role)?;
        Some(PartNo(self.first_part(w).0 + place as u32))
    }

    // The parts of a wire.
    fn roles(&self, w: WireNo) -> &[Role]
        requires { w.0 < length self.now.wires }
        ensures roles { result.now ≡ roles_of (wire_at self.now.wires w.0).item }
        ensures valid { IsValid self.now }
    {
        self.wires()[w.0 as usize].item.roles()
    }

    // The number of a wire's first part.
    #[tactic(auto, using(crate::proofs::PartPlaces::as_many_firsts))]
    fn first_part(&self, w: WireNo) -> PartNo
        requires { w.0 < length self.now.wires }
        ensures { result ≡ first_at (firsts_from 0 self.now.wires) w.0 }
    {
        self.firsts()[w.0 as usize]
    }

    fn firsts(&self) -> &[PartNo]
        ensures { result.now ≡ firsts_from 0 self.now.wires }
    {
        self.firsts.as_slice()
    }

    /// Whether certificates are for the network: else the first wire whose block isn't smooth.
    #[tactic(auto, using(crate::proofs::DraftLemmas::few_valid))]
    pub fn smooth(&self) -> Result<(), WireNo>
        ensures smooth { OnOk result (IsSmooth self.now.wires) }
        ensures first { IfErr result (λ wire. IsFirstRough self.now.wires wire.0) }
    {
        match first_rough(self.wires()) {
            Some(wire) => Err(wire),
            None => Ok(()),
        }
    }
}
