//! How names are used, counted from the last line up.
ghost use Rattle.std.specs.Prelude.{◌≡◌, ◌<◌, [], ◌∷◌, ◌++◌, length, map, IfOk};
ghost use Rattle.script_lang.specs.Views.{skeleton_of, statement_of};
ghost use Rattle.script_lang.specs.Sound.{IsTypedScript};
ghost use Rattle.fuse_rewrite.specs.Uses.{Use, Uses, use_by, uses_of, uses_with, all_uses};
ghost use Rattle.fuse_rewrite.specs.Demands.{demand_of, used_by, more_demand, is_by_pipe, AreDemands, AllBelow, names_in};

use crate::skeleton::{arguments_of, takes_pipe};
use script_lang::{Line, Script, Skel};
use std::alloc::{AllocError, Global};

/// How the lines below use a name.
#[derive(Clone, Copy)]
pub(crate) enum Demand {
    /// By none.
    Unused,
    /// By one, whose skeleton takes the elements of a list as they come.
    Piped,
    /// By a print line, by another skeleton, or by several.
    Built,
}

impl Demand {
    /// Whether there is a use.
    pub(crate) fn is_used(self) -> bool
        ensures { result ≡ used_by self }
    {
        match self {
            Demand::Unused => false,
            Demand::Piped | Demand::Built => true,
        }
    }

    // With one more use.
    fn with_use(self, piped: bool) -> Demand
        ensures { result ≡ more_demand piped self }
    {
        match self {
            Demand::Unused => { if piped { Demand::Piped } else { Demand::Built } }
            Demand::Piped | Demand::Built => Demand::Built,
        }
    }
}

/// How the lines below use the name of the line of this number.
pub(crate) fn demand_at(demands: &[Demand], n: usize) -> Demand
    requires { n < length demands.now }
    ensures { (us : Uses) → AreDemands us demands.now → result ≡ demand_of (uses_of n us) }
{
    demands[n]
}

// One more use of a name.
fn add_use(demands: &mut [Demand], name: u32, piped: bool)
    requires { name < length demands.old }
    ensures { (us : Uses) → (u : Use) → is_by_pipe u ≡ piped → AreDemands us demands.old → AreDemands ((name, u) ∷ us) demands.new }
{
    let name = name as usize;
    demands[name] = demand_at(demands, name).with_use(piped);
}

// One more use of each argument.
fn add_arguments(demands: &mut [Demand], skel: &Skel)
    requires { AllBelow (length demands.old) (skeleton_of skel.now).arguments }
    ensures { (us : Uses) → AreDemands us demands.old → AreDemands (map (λ a. (a, use_by (skeleton_of skel.now).head)) (skeleton_of skel.now).arguments ++ us) demands.new }
{
    let piped = takes_pipe(skel);
    let names = arguments_of(skel);
    add_use(demands, names.last, piped);
    if let Some(name) = names.first {
        add_use(demands, name, piped);
    }
}

// The uses by a line, which is needed or not, on top of those by the lines below it.
fn add_line(demands: &mut [Demand], needed: bool, line: &Line)
    requires { AllBelow (length demands.old) (names_in (statement_of line.now)) }
    ensures { (us : Uses) → AreDemands us demands.old → AreDemands (uses_with needed (statement_of line.now) us) demands.new }
{
    match line {
        Line::Input { .. } => {}
        Line::Let { skel, .. } => {
            if needed {
                add_arguments(demands, skel);
            }
        }
        Line::Print { of } => add_use(demands, *of, false),
    }
}

// No uses.
fn no_demands(alloc: Global, count: usize) -> Result<Vec<Demand>, AllocError>
    ensures count { IfOk result (λ ds. length ds.items ≡ count) }
    ensures demands { IfOk result (λ ds. AreDemands [] ds.items) }
{
    Ok(vec![in alloc; Demand::Unused; count]?)
}

// The uses by these lines, of which none is counted yet, from the last line up.
fn count_uses(lines: &[Line], demands: &mut [Demand])
    requires same { length demands.old ≡ length lines.now }
    requires typed { IsTypedScript (map statement_of lines.now) }
    requires unused { AreDemands [] demands.old }
    ensures { AreDemands (all_uses (map statement_of lines.now)) demands.new }
{
    let mut n = lines.len();
    while 0 < n {
        n -= 1;
        let needed = demand_at(demands, n).is_used();
        add_line(demands, needed, &lines[n]);
    }
}

/// How each name is used, in time and memory in proportion to the lines.
pub(crate) fn demands_of(alloc: Global, script: &Script) -> Result<Vec<Demand>, AllocError>
    ensures count { IfOk result (λ ds. length ds.items ≡ length script.now) }
    ensures demands { IfOk result (λ ds. AreDemands (all_uses (map statement_of script.now)) ds.items) }
{
    let lines = script.as_slice();
    let mut demands = no_demands(alloc, lines.len())?;
    count_uses(lines, &mut demands);
    Ok(demands)
}
