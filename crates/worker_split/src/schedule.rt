//! The law of dealing, over every order in which workers draw.
ghost use Rattle.worker_split.specs.Dealing.{EachScheduleDeals};

/// For every n and every schedule, which names the worker of each draw: a number below n and below
/// the schedule's length stands in the list of the worker at its place in the schedule, once, and
/// in no other list; no other number stands in any.
pub fn each_schedule_deals()
    ensures { EachScheduleDeals }
{}
