//! The look-ups of the styles that an attribute is under.

ghost use Rattle.std.specs.Prelude.{◌≡◌, IfOk};
ghost use Rattle.bags_themes.specs.Theme.{value_of};
ghost use Rattle.bags_themes.specs.Attribute.{attributes_followed, slot_of};
ghost use Rattle.bags_themes.specs.AttributeTrace.{slot_trace, style_end, styles_trace};
ghost use Rattle.bags_themes.specs.Course.{look_ups_of_styles, IsWay};

use crate::bag_fault::BagFault;
use crate::bags::MOST_BAGS;
use crate::course::{Course, CourseStep};
use crate::found_bag::FoundBag;
use crate::slot::Slot;
use crate::theme::{REFERENCES_AFTER_SLOT, Theme};
use reference_resolver::{Cand, End, ResId};
use std::alloc::{AllocError, Global};
use std::rc::Rc;

/// A style that is not applied yet, since bags of its chain are still looked up.
#[derive(Drop)]
pub struct StyleCourse<'a, 's> {
    pub(crate) style: ResId,
    /// The bags of its chain so far.
    pub(crate) found: Vec<FoundBag<'a>>,
    /// How many more may be found.
    pub(crate) left: u8,
    /// What the styles before it have set.
    pub(crate) theme: Rc<Theme>,
    /// The styles after it.
    pub(crate) styles: &'s [ResId],
    pub(crate) attr: ResId,
}

impl<'a, 's> StyleCourse<'a, 's> {
    ghost use Rattle.std.specs.Prelude.{◌≡◌, ◌++◌, [], ◌∷◌, true, Err, IfOk};
    ghost use Rattle.std.specs.Option.{option_map};
    ghost use Rattle.reference_resolver.specs.overlay_map.Candidates.{cand_of};
    ghost use Rattle.bags_themes.specs.Bag.{merged};
    ghost use Rattle.bags_themes.specs.FoundBag.{found_bag_of, found_bags_of};
    ghost use Rattle.bags_themes.specs.Theme.{value_of, values_after};
    ghost use Rattle.bags_themes.specs.AttributeTrace.{styles_trace};
    ghost use Rattle.bags_themes.specs.Course.{after_style, look_ups_in, look_ups_of_styles, after_bag, IsWay};

    /// What comes after a look-up in the chain of the style, for which this was selected.
    pub(crate) fn after(
        &self,
        alloc: Global,
        best: &Option<Cand<'a>>,
    ) -> Result<CourseStep<'a, 's>, AllocError>
        ensures { IfOk result (IsWay
            (λ stack. after_style stack self.now (option_map cand_of best.now)) (look_ups_in self.now)) }
    {
        let bag = match FoundBag::of(best) {
            Ok(bag) => bag,
            Err(fault) => return self.after_none(alloc, fault),
        };
        if self.left == 0 {
            return Ok(CourseStep::EndsAt(End::TooLong { id: self.style }));
        }
        let found = self.found_and(alloc, bag)?;
        if bag.parent.0 == 0 {
            return self.after_chain(alloc, &found);
        }
        let course = StyleCourse {
            style: self.style,
            found,
            left: self.left - 1,
            theme: self.theme.clone()?,
            styles: self.styles,
            attr: self.attr,
        };
        Ok(CourseStep::LookUp(bag.parent, Course::Style(Rc::new(alloc, course)?)))
    }

    // The same where no bag was found. It ends the chain, if it has one.
    fn after_none(&self, alloc: Global, fault: BagFault) -> Result<CourseStep<'a, 's>, AllocError>
        ensures { IfOk result (IsWay
            (λ stack. after_bag stack self.now.attr.0 self.now.styles.now (value_of self.now.theme.value)
            self.now.style self.now.left (found_bags_of self.now.found.items) (Err fault)) (look_ups_in self.now)) }
    {
        if self.found.is_empty() {
            return Ok(CourseStep::EndsAt(style_end(self.style, fault)));
        }
        self.after_chain(alloc, &self.found)
    }

    // The bags so far and one more.
    fn found_and(&self, alloc: Global, bag: FoundBag<'a>) -> Result<Vec<FoundBag<'a>>, AllocError>
        ensures { IfOk result (λ found. found.items ≡ self.now.found.items ++ bag.entry ∷ []) }
    {
        let mut found = Vec::from_slice(alloc, &self.found)?;
        found.push(bag)?;
        Ok(found)
    }

    // What comes after the whole chain: it is applied, and the next style has its turn.
    fn after_chain(
        &self,
        alloc: Global,
        chain: &[FoundBag<'a>],
    ) -> Result<CourseStep<'a, 's>, AllocError>
        ensures { IfOk result (IsWay
            (λ stack. styles_trace stack self.now.attr.0
            (values_after true (merged (found_bags_of chain.now)) (value_of self.now.theme.value))
            self.now.styles.now) (look_ups_of_styles self.now.styles.now)) }
    {
        let theme = self.theme.as_ref().after_chain(chain)?;
        next_style(alloc, theme, self.styles, self.attr)
    }
}

/// The first look-up of the next style, or that of the reference that the attribute is.
pub(crate) fn next_style<'a, 's>(
    alloc: Global,
    theme: Theme,
    styles: &'s [ResId],
    attr: ResId,
) -> Result<CourseStep<'a, 's>, AllocError>
    ensures { IfOk result (IsWay
        (λ stack. styles_trace stack attr.0 (value_of theme) styles.now) (look_ups_of_styles styles.now)) }
{
    let Some((style, styles)) = styles.split_first() else {
        return Ok(after_styles(&theme, attr));
    };
    let course = StyleCourse {
        style: *style,
        found: Vec::new(alloc),
        left: MOST_BAGS,
        theme: Rc::new(alloc, theme)?,
        styles,
        attr,
    };
    Ok(CourseStep::LookUp(*style, Course::Style(Rc::new(alloc, course)?)))
}

// The look-up of the reference that the attribute is, or its end.
fn after_styles<'a, 's>(theme: &Theme, attr: ResId) -> CourseStep<'a, 's>
    ensures { IsWay
        (λ stack. slot_trace stack (slot_of (value_of theme.now) attributes_followed attr.0)) 20 result }
{
    match theme.slot(attr) {
        Slot::Refers(target) => CourseStep::LookUp(
            target,
            Course::References {
                left: REFERENCES_AFTER_SLOT,
            },
        ),
        Slot::Ends(end) => CourseStep::EndsAt(end),
    }
}

// Where an attribute ends under a style that is no bag, or has too many parents.
fn style_end(style: ResId, fault: BagFault) -> End
    ensures { result ≡ style_end style fault }
{
    match fault {
        BagFault::BagDepth => End::TooLong { id: style },
        BagFault::Absent | BagFault::Plain | BagFault::OutOfMemory => End::Absent { id: style },
    }
}
