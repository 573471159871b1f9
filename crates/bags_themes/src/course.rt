//! The look-ups on the way to the end of an id, or of an attribute under styles, or to what an id says, one after the
//! other.

ghost use Rattle.std.specs.Prelude.{IfOk};
ghost use Rattle.std.specs.Option.{option_map};
ghost use Rattle.reference_resolver.specs.config_record.DeviceSeen.{device_numbers};
ghost use Rattle.reference_resolver.specs.overlay_map.Candidates.{cand_of};
ghost use Rattle.bags_themes.specs.Theme.{unset};
ghost use Rattle.bags_themes.specs.AttributeEnd.{IsTheEndUnder};
ghost use Rattle.bags_themes.specs.Course.{after_reference, IsWay};

use crate::content_course::{after_content, after_parent};
use crate::style_course::{StyleCourse, next_style};
use crate::theme::Theme;
use reference_resolver::{Cand, Device, End, Next, REFERENCES_FOLLOWED, ResId, Stack, select};
use std::alloc::{AllocError, Global};
use std::rc::Rc;

/// What comes after a look-up. The rest of the trace depends on this and on what is selected alone.
#[derive(Drop)]
pub enum Course<'a, 's> {
    /// So many references may still be followed.
    References { left: u8 },
    /// A bag of a style was looked up.
    Style(Rc<StyleCourse<'a, 's>>),
    /// So many references may still be followed. Where they end at a bag, its parents are looked up.
    Content { left: u8 },
    /// The parents of this bag are looked up. So many more bags may be found.
    Parents { bag: ResId, left: u8 },
    /// This end, whatever is selected.
    Ended(End),
}

/// What comes next.
#[derive(Drop)]
pub enum CourseStep<'a, 's> {
    /// The look-up of this id, and what comes after it.
    LookUp(ResId, Course<'a, 's>),
    /// Nothing: this is the end.
    EndsAt(End),
}

impl<'a, 's> Course<'a, 's> {
    ghost use Rattle.std.specs.Prelude.{IfOk};
    ghost use Rattle.std.specs.Option.{option_map};
    ghost use Rattle.reference_resolver.specs.overlay_map.Candidates.{cand_of};
    ghost use Rattle.reference_resolver.specs.Ends.{references_followed};
    ghost use Rattle.reference_resolver.specs.Trace.{trace_of};
    ghost use Rattle.bags_themes.specs.AttributeTrace.{attribute_trace};
    ghost use Rattle.bags_themes.specs.ContentTrace.{content_trace};
    ghost use Rattle.bags_themes.specs.Course.{after_course, look_ups_after, look_ups_of_styles, IsWay, SameCourse};

    /// The first look-up of an id, of which at most twenty references are followed.
    pub fn of_id(id: ResId) -> CourseStep<'a, 's>
        ensures { IsWay (λ stack. trace_of stack references_followed id.0) 21 result }
    {
        CourseStep::LookUp(
            id,
            Course::References {
                left: REFERENCES_FOLLOWED,
            },
        )
    }

    /// The first look-up of an attribute under styles, which are applied in their order, with force.
    pub fn of_attribute(
        alloc: Global,
        attr: ResId,
        styles: &'s [ResId],
    ) -> Result<CourseStep<'a, 's>, AllocError>
        ensures { IfOk result (IsWay
            (λ stack. attribute_trace stack attr.0 styles.now) (look_ups_of_styles styles.now)) }
    {
        next_style(alloc, Theme::new(alloc), styles, attr)
    }

    /// The first look-up of what an id says: of the id and its references, of which at most twenty are followed, and of
    /// the parents of a bag.
    pub fn of_content(id: ResId) -> CourseStep<'a, 's>
        ensures { IsWay (λ stack. content_trace stack id.0) 86 result }
    {
        let left = REFERENCES_FOLLOWED;
        CourseStep::LookUp(id, Course::Content { left })
    }

    /// The same course. What it has found is not copied.
    pub fn shared(&self) -> Result<Course<'a, 's>, AllocError>
        ensures { IfOk result (λ course. SameCourse course self.now) }
    {
        match self {
            Course::References { left } => Ok(Course::References { left: *left }),
            Course::Style(course) => Ok(Course::Style(course.clone()?)),
            Course::Content { left } => Ok(Course::Content { left: *left }),
            Course::Parents { bag, left } => Ok(Course::Parents {
                bag: *bag,
                left: *left,
            }),
            Course::Ended(end) => Ok(Course::Ended(*end)),
        }
    }

    /// What comes after the look-up of an id for which this was selected.
    pub fn after(
        &self,
        alloc: Global,
        id: ResId,
        best: &Option<Cand<'a>>,
    ) -> Result<CourseStep<'a, 's>, AllocError>
        ensures { IfOk result (IsWay
            (λ stack. after_course stack self.now id.0 (option_map cand_of best.now)) (look_ups_after self.now)) }
    {
        match self {
            Course::References { left } => Ok(after_reference(id, best, *left)),
            Course::Style(course) => course.as_ref().after(alloc, best),
            Course::Content { left } => Ok(after_content(id, best, *left)),
            Course::Parents { bag, left } => Ok(after_parent(*bag, best, *left)),
            Course::Ended(end) => Ok(CourseStep::EndsAt(*end)),
        }
    }
}

impl<'a, 's> CourseStep<'a, 's> {
    ghost use Rattle.std.specs.Prelude.{◌≡◌, IfOk};
    ghost use Rattle.reference_resolver.specs.config_record.DeviceSeen.{device_numbers};
    ghost use Rattle.bags_themes.specs.Course.{trace_from};

    /// Where it leads a device.
    pub fn end(self, alloc: Global, stack: &Stack<'a>, device: &Device) -> Result<End, AllocError>
        ensures { IfOk result
            (λ end. end ≡ (trace_from stack.now self.entry (device_numbers device.now)).end) }
    {
        let mut step = self;
        'look_ups: loop {
            match step {
                CourseStep::EndsAt(end) => return Ok(end),
                CourseStep::LookUp(id, course) => {
                    step = course.after(alloc, id, &select(stack, id, device))?;
                }
            }
        }
    }
}

/// Where an attribute ends at a device under styles, which are applied in their order, with force.
pub fn attribute_under<'a, 's>(
    alloc: Global,
    stack: &Stack<'a>,
    attr: ResId,
    styles: &'s [ResId],
    device: &Device,
) -> Result<End, AllocError>
    ensures { IfOk result
        (IsTheEndUnder stack.now attr.0 unset styles.now (device_numbers device.now)) }
{
    Course::of_attribute(alloc, attr, styles)?.end(alloc, stack, device)
}

fn after_reference<'a, 's>(id: ResId, best: &Option<Cand<'a>>, left: u8) -> CourseStep<'a, 's>
    ensures { IsWay (λ stack. after_reference stack left id.0 (option_map cand_of best.now)) left result }
{
    match Next::of(id, best).cut_off(left) {
        Next::LookUp(target) => {
            CourseStep::LookUp(target, Course::References { left: left - 1 })
        }
        Next::EndsAt(end) => CourseStep::EndsAt(end),
    }
}
