//! The copies of judgements.
use crate::plan::Plan;
use crate::rebuilding::with_judgements;
use crate::replacements::Spot;
use gft_core::{Name, NoMemory, Shared};
use gft_modules::{judgement_at, judgements_of};
use gft_syntax::{Judgement, Module, Origin, Reference};
use gft_walk::{Replacing, Target, walk_judgement};
use sqlite_items::Items;
use std::alloc::Global;

/// One of the judgements that are copied.
#[derive(Clone, Copy)]
struct Copying<'p> {
    plan: &'p Plan,
    copy: u32,
}

fn found(alloc: Global, name: &Name, spot: Spot) -> Result<Reference, NoMemory> {
    Ok(Reference::Found(Origin {
        name: name.copy(alloc)?,
        module: spot.module,
        judgement: spot.judgement,
    }))
}

impl<'p> Target for Copying<'p> {
    fn target(&self, alloc: Global, origin: &Origin) -> Result<Reference, NoMemory> {
        let spot = match self
            .plan
            .replacements
            .find(origin.module, origin.name.as_str())
        {
            None => Spot {
                module: origin.module,
                judgement: origin.judgement,
            },
            Some(spot) => spot,
        };
        found(alloc, &origin.name, spot)
    }

    fn keeps(&self, name: &Name) -> bool {
        self.plan.keeps(self.copy, name.as_str())
    }
}

/// The copy of a judgement.
fn copied(
    alloc: Global,
    plan: &Plan,
    copy: u32,
    judgement: &Judgement,
) -> Result<Shared<Judgement>, NoMemory> {
    let copying = Copying { plan, copy };
    let mut naming = Replacing { target: &copying };
    let made = walk_judgement(alloc, judgement, &mut naming)?;
    Shared::new(alloc, made)
}

/// The copies that are planned, in order.
fn copies(
    alloc: Global,
    modules: &Vec<Module>,
    plan: &Plan,
) -> Result<Items<Shared<Judgement>>, NoMemory> {
    let mut all = Items::new(alloc);
    let mut number = 0u32;
    'copies: for at in 0..plan.len() {
        if let Some(spot) = plan.copied_at(at) {
            if let Some(judgement) = judgement_at(modules, spot.module, spot.judgement) {
                all.push(copied(alloc, plan, number, judgement)?)?;
            }
        }
        number = number.saturating_add(1);
    }
    Ok(all)
}

/// The module with the copies that are planned before its own judgements.
pub fn with_copies(
    alloc: Global,
    modules: &Vec<Module>,
    module: &Module,
    plan: &Plan,
) -> Result<Module, NoMemory> {
    let mut all = copies(alloc, modules, plan)?;
    'own: for judgement in judgements_of(module) {
        all.push(judgement.share()?)?;
    }
    with_judgements(alloc, module, all)
}
