//! What a script asks for: a group, the behaviour that it names, and commands, of which a run has a plan.

ghost use Rattle.std.specs.Prelude.{◌≡◌};
ghost use Rattle.fbl_scripts.specs.Scripts.{behaviour_word};

use fbl_input::CommandForm;
use fbl_trace::{Config, Member, MemberSet, Strike};
use std::fmt;
use std::marker::Model;

/// A behaviour that a script names.
#[derive(Clone, Copy, Debug, PartialEq, Eq)]
pub enum BehaviourName {
    /// `relay`
    Relay,
    /// `mix`
    Mix,
}

impl BehaviourName {
    /// The word by which a script names it.
    pub fn name(self) -> &'static str
        ensures { result.now ≡ behaviour_word self }
    {
        match self {
            BehaviourName::Relay => "relay",
            BehaviourName::Mix => "mix",
        }
    }
}

/// The strikes that a run makes on its way, in the order given. Contracts see the list.
#[derive(Drop)]
pub struct Plan {
    strikes: Vec<Strike>,
}

impl Model for Plan {
    ghost use Rattle.std.specs.Prelude.{List};
    ghost use Rattle.fbl_trace.specs.declared.strike.Strike.{Strike};

    ghost Value = { List Strike };

    ghost use Rattle.std.specs.Coded.{codes};
    ghost use Rattle.fbl_trace.specs.contracts.strike.Strike as strike;

    ghost coded = { Prim.hlevel (codes, strike.the_row.coded) };

    ghost view = { λ p. p.strikes.items };
}

impl Plan {
    /// A plan of these strikes.
    pub fn new(strikes: Vec<Strike>) -> Plan
        ensures { result ≡ strikes.items }
    {
        Plan { strikes }
    }

    /// The strikes, in order.
    pub fn strikes(&self) -> &[Strike]
        ensures { result.now ≡ self.now }
    {
        self.strikes.as_slice()
    }
}

/// Writes a strike of a plan, behind this.
fn write_strike<W: fmt::Write>(
    f: &mut fmt::Formatter<W>,
    before: &str,
    at: u64,
    members: MemberSet,
) -> fmt::Result {
    write!(f, "{before}[{at},{members}]")
}

/// As a script has it, as in `[[2,[1]],[5,[0,3]]]`.
impl fmt::Display for Plan {
    fn fmt<W: fmt::Write>(&self, f: &mut fmt::Formatter<W>) -> fmt::Result {
        f.write_str("[")?;
        let mut end = "";
        for strike in &self.strikes {
            write_strike(f, end, strike.at, strike.set)?;
            end = ",";
        }
        f.write_str("]")
    }
}

/// A command of a script.
#[derive(Drop)]
pub enum Command {
    /// Deliver the first message from `from` to `to`.
    Deliver { to: Member, from: Member },
    /// Print the members' states.
    States,
    /// Print what each member has, and the totals.
    Report,
    /// Strike the members.
    Strike(MemberSet),
    /// Recover the members that are down.
    Recover,
    /// Print the dump with this strike set. Nobody is struck by it.
    Dump(MemberSet),
    /// Let workers deliver until nothing is in flight.
    Run(Plan),
    /// Take a checkpoint of the member. Only scripts of version 2 have it.
    Checkpoint(Member),
}

impl Command {
    /// How it is written.
    fn form(&self) -> CommandForm {
        match self {
            Command::Deliver { .. } => CommandForm::Deliver,
            Command::States => CommandForm::States,
            Command::Report => CommandForm::Report,
            Command::Strike(_) => CommandForm::Strike,
            Command::Recover => CommandForm::Recover,
            Command::Dump(_) => CommandForm::Dump,
            Command::Run(_) => CommandForm::Run,
            Command::Checkpoint(_) => CommandForm::Checkpoint,
        }
    }
}

/// Its name with its arguments as a script has them, as in `deliver to 1 from 2` and `strike [1,2]`.
impl fmt::Display for Command {
    fn fmt<W: fmt::Write>(&self, f: &mut fmt::Formatter<W>) -> fmt::Result {
        f.write_str(self.form().name())?;
        match self {
            Command::Deliver { to, from } => write!(f, " to {to} from {from}"),
            Command::States | Command::Report | Command::Recover => Ok(()),
            Command::Strike(set) | Command::Dump(set) => write!(f, " {set}"),
            Command::Run(plan) => write!(f, " {plan}"),
            Command::Checkpoint(member) => write!(f, " {member}"),
        }
    }
}

/// What a script asks for.
#[derive(Drop)]
pub struct Script {
    /// What each member does with a message.
    pub behaviour: BehaviourName,
    /// The parameters of the group.
    pub config: Config,
    /// The commands, in order.
    pub commands: Vec<Command>,
}
