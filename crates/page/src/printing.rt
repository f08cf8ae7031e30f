// The lines of the page are printed on a sheet.
ghost use Rattle.std.specs.Prelude.{◌≡◌, [], ◌∷◌, ◌++◌, take, codes, decimal};
ghost use Rattle.aliasing.specs.Clear.{clear_bytes, ones_in};
ghost use Rattle.page.specs.Page.{fields, line, page as page_of};
ghost use Rattle.page.specs.Parts.{clear_line, generators_line, pattern_line, resolution_line};
ghost use Rattle.page.specs.Written.{written};

use crate::sheet::Sheet;
use aliasing::clear::clear;
use contents::Side;
use levels::Levels;
use plan::SettledPlan;
use preferences::{LeastAberration, Preference, Shortest};

impl Sheet {
    // Levels, factors and the counts of words.
    fn print_head<L: Levels>(&mut self, factors: u8, defining: u32, block: u32)
        ensures { written self.new ≡ take 1024 (written self.old ++ line (codes "plan") (fields decimal (L.Levels.model.s ∷ factors ∷ defining ∷ block ∷ []))) }
    {
        let levels = u32::from(L::LEVELS);
        self.numbers(b"plan", &[levels, u32::from(factors), defining, block]);
    }

    // The resolution and its count, or none.
    fn print_resolution<L: Levels>(&mut self, plan: &SettledPlan<L>)
        ensures { written self.new ≡ take 1024 (written self.old ++ resolution_line L.Levels.model plan.now) }
    {
        match plan.resolution() {
            Some((length, count)) => self.numbers(b"resolution", &[length, count]),
            None => self.text(b"resolution none\n"),
        }
    }

    // The wordlength pattern.
    fn print_pattern<L: Levels>(&mut self, plan: &SettledPlan<L>)
        ensures { written self.new ≡ take 1024 (written self.old ++ pattern_line L.Levels.model plan.now) }
    {
        let mut counts = [0; aliasing::pattern::LENGTHS];
        let end = plan.pattern(&mut counts).unwrap();
        self.numbers(b"pattern", &counts[..end]);
    }

    // The generators of a side by a preference.
    fn print_generators<L: Levels, P: Preference<L>>(
        &mut self,
        label: &[u8],
        plan: &SettledPlan<L>,
        side: Side,
        preference: &P,
    )
        ensures { written self.new ≡ take 1024 (written self.old ++ generators_line L.Levels.model label.now (P.Preference.good preference.now) side plan.now) }
    {
        let mut words = [0; choice::MOST];
        let end = plan.choose(side, preference, &mut words).unwrap();
        self.words::<L>(label, plan, &words[..end]);
    }

    // With two levels the number of clear pairs.
    fn print_clear<L: Levels>(&mut self, plan: &SettledPlan<L>)
        ensures { written self.new ≡ take 1024 (written self.old ++ clear_line L.Levels.model plan.now) }
    {
        if L::LEVELS == 2 {
            self.numbers(b"clear", &[clear_count::<L>(plan)]);
        }
    }
}

// How many pairs of factors are clear over the defining words, with two levels.
fn clear_count<L: Levels>(plan: &SettledPlan<L>) -> u32
    ensures { result ≡ ones_in (clear_bytes plan.now.factors plan.now.defining) }
{
    clear(plan.factors(), plan.list(Side::Defining)).ones() as u32
}

// The page of a plan. A plan is kept, so its page fits a sheet.
pub(crate) fn printed<L: Levels>(plan: &SettledPlan<L>) -> Sheet
    ensures { written result ≡ page_of L.Levels.model plan.now }
{
    let mut sheet = Sheet::new();
    let (defining, block) = plan.counts();
    sheet.print_head::<L>(plan.factors(), defining as u32, block as u32);
    sheet.print_resolution::<L>(plan);
    sheet.print_pattern::<L>(plan);
    sheet.print_generators::<L, Shortest>(b"defining", plan, Side::Defining, &Shortest);
    sheet.print_generators::<L, LeastAberration>(b"blocks", plan, Side::Block, &LeastAberration);
    sheet.print_clear::<L>(plan);
    sheet
}
