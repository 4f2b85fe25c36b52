ghost use Rattle.std.specs.Prelude.{◌≡◌, ◌≤◌, All, List, Some, IfOk};
ghost use Rattle.disp_model.specs.declared.plan.Event.{Event};
ghost use Rattle.disp_model.specs.WellFormed.{horizon};
ghost use Rattle.disp_model.specs.History.{newest};
ghost use Rattle.dispatch_core.specs.Asked.{IsGrowth};
ghost use Rattle.dispatch_core.specs.States.{IsExamined};
ghost use Rattle.search_workers.specs.Grown.{IsGrownOf};
ghost use Rattle.search_workers.specs.Searched.{CoreGoesOn, node_of};

use crate::growth::Growth;
use crate::turn::{SEARCHER, tell};
use disp_model::{Memory, Plan};
use dispatch_core::{Core, CoreEvent, StepNo};
use open_nodes::{Fragment, Work};
use std::alloc::Global;

/// Gives a work back, unexamined.
fn give_back(alloc: Global, core: &mut Core, work: Work)
    ensures { CoreGoesOn core.old core.new }
{
    let event = CoreEvent::GiveBack {
        work,
        examined: false,
    };
    let _told = tell(alloc, core, event);
}

/// Gives a work back as examined.
fn give_back_examined(alloc: Global, core: &mut Core, work: Work) -> Result<(), Memory>
    requires newest { work.edition ≡ newest core.old.history }
    requires examined { IsExamined core.old.settings.rule (node_of core.old work) work.bound }
    ensures { CoreGoesOn core.old core.new }
{
    let event = CoreEvent::GiveBack {
        work,
        examined: true,
    };
    tell(alloc, core, event)?;
    Ok(())
}

/// Puts what grew in the place of its leaf. Where memory runs out the work is given back.
fn put_in(alloc: Global, core: &mut Core, fragment: Fragment) -> Result<(), Memory>
    requires { IsGrowth core.old fragment }
    ensures { CoreGoesOn core.old core.new }
{
    let event = CoreEvent::Grow {
        searcher: SEARCHER,
        fragment,
    };
    match core.step(alloc, event) {
        Ok(_) => Ok(()),
        Err(StepNo::Memory(CoreEvent::Grow { fragment, .. })) => {
            give_back(alloc, core, fragment.into_work());
            Err(Memory)
        }
        Err(_) => Err(Memory),
    }
}

/// Publishes a plan for the newest edition, where one was found.
pub(crate) fn publish(alloc: Global, core: &mut Core, plan: Option<Plan>) -> Result<(), Memory>
    requires { (found : List Event) → plan ≡ Some found
        → All (λ e. e.time ≤ horizon core.old.problem.trains) found }
    ensures { CoreGoesOn core.old core.new }
{
    let Some(plan) = plan else {
        return Ok(());
    };
    let edition = core.edition();
    tell(alloc, core, CoreEvent::Publish { edition, plan })?;
    Ok(())
}

/// Tells the core what a work came to.
fn tell_growth(alloc: Global, core: &mut Core, work: Work, growth: Growth) -> Result<(), Memory>
    requires newest { work.edition ≡ newest core.old.history }
    requires grown { IsGrownOf core.old.settings.rule (node_of core.old work) work.best
        work.allowance work.bound growth }
    ensures { CoreGoesOn core.old core.new }
{
    match growth {
        Growth::Examined => give_back_examined(alloc, core, work),
        Growth::Subtree {
            nodes,
            bounds,
            plan,
        } => {
            let fragment = Fragment {
                work,
                subtree: nodes,
                bounds,
            };
            put_in(alloc, core, fragment)?;
            publish(alloc, core, plan)
        }
    }
}

/// Tells the core what a work came to, if it came to something; else gives it back.
pub(crate) fn hand_in(
    alloc: Global,
    core: &mut Core,
    work: Work,
    growth: Result<Growth, Memory>,
) -> Result<(), Memory>
    requires newest { work.edition ≡ newest core.old.history }
    requires grown { IfOk growth
        (IsGrownOf core.old.settings.rule (node_of core.old work) work.best work.allowance
        work.bound) }
    ensures { CoreGoesOn core.old core.new }
{
    match growth {
        Ok(growth) => tell_growth(alloc, core, work, growth),
        Err(memory) => {
            give_back(alloc, core, work);
            Err(memory)
        }
    }
}
