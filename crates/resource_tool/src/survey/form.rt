//! The lines of a survey, in the form that is asked for.

ghost use Rattle.std.specs.List.{flat_map};
ghost use Rattle.contract_words.specs.Writes.{Writes};
ghost use Rattle.resource_tool.specs.Finding.{all_findings};
ghost use Rattle.resource_tool.specs.Findings.{tally_in};
ghost use Rattle.resource_tool.specs.SurveyForm.{form_seen, found_in, lacking_in, qualifier_in, refused_in, shared_in};

use crate::survey::finding::Finding;
use crate::survey::findings::Findings;
use crate::survey::json::{
    write_found_json, write_lacks_json, write_qualifier_json, write_refused_json, write_shared_json,
};
use crate::survey::qualifiers::Spread;
use crate::survey::text::{write_found, write_lacks, write_qualifier, write_shared};
use command_base::{Coord, SharedNames, ToolFault, fault_text};
use resource_text::LineForm;
use std::alloc::Global;
use std::io::{self, Write};

/// How the lines of a survey are written.
#[derive(Clone, Copy)]
pub(crate) struct SurveyForm<'p> {
    pub alloc: Global,
    pub lines: LineForm,
    /// Where the tables of the layers lie.
    pub paths: &'p [String],
}

impl SurveyForm<'_> {
    /// Writes a line for each finding that a layer has.
    #[tactic(auto, unfolding(crate::specs::Unfolded::all_findings))]
    pub fn write_findings<W: Write + Drop>(
        &self,
        layer: usize,
        findings: &Findings,
        out: &mut W,
    ) -> io::Result<()>
        ensures { Writes W.contents out.old out.new result
            (flat_map (λ finding. found_in (form_seen self.now) layer finding (tally_in findings.now finding)) all_findings) }
    {
        self.write_each_finding(layer, findings, &Finding::ALL, out)
    }

    #[tactic(auto, using(crate::proofs::AnySteps::finds))]
    fn write_each_finding<W: Write + Drop>(
        &self,
        layer: usize,
        findings: &Findings,
        kinds: &[Finding],
        out: &mut W,
    ) -> io::Result<()>
        ensures { Writes W.contents out.old out.new result
            (flat_map (λ finding. found_in (form_seen self.now) layer finding (tally_in findings.now finding)) kinds.now) }
    {
        for finding in kinds {
            self.write_found(layer, *finding, findings, out)?;
        }
        Ok(())
    }

    #[tactic(auto, unfolding(crate::specs::SurveyForm::found_in))]
    fn write_found<W: Write + Drop>(
        &self,
        layer: usize,
        finding: Finding,
        findings: &Findings,
        out: &mut W,
    ) -> io::Result<()>
        ensures { Writes W.contents out.old out.new result (found_in (form_seen self.now) layer finding (tally_in findings.now finding)) }
    {
        let tally = findings.tally(finding);
        if tally.count == 0 {
            return Ok(());
        }
        match self.lines {
            LineForm::Text(_) => write_found(layer, finding, tally, out),
            LineForm::Json => {
                write_found_json(self.alloc, self.paths, layer, finding, tally, out)
            }
        }
    }

    /// Writes the line of the ids whose names stand for others, where there are some.
    #[tactic(auto, unfolding(crate::specs::SurveyForm::shared_in))]
    pub fn write_shared<W: Write + Drop>(
        &self,
        shared: Option<SharedNames>,
        out: &mut W,
    ) -> io::Result<()>
        ensures { Writes W.contents out.old out.new result (shared_in (form_seen self.now) shared) }
    {
        let Some(shared) = shared else {
            return Ok(());
        };
        match self.lines {
            LineForm::Text(_) => write_shared(shared, out),
            LineForm::Json => write_shared_json(self.alloc, shared, out),
        }
    }

    /// Writes the line of a qualifier, where rows have it.
    #[tactic(auto, unfolding(crate::specs::SurveyForm::qualifier_in))]
    pub fn write_qualifier<W: Write + Drop>(
        &self,
        coord: Coord,
        spread: Spread,
        out: &mut W,
    ) -> io::Result<()>
        ensures { Writes W.contents out.old out.new result (qualifier_in (form_seen self.now) coord spread) }
    {
        if spread.count == 0 {
            return Ok(());
        }
        match self.lines {
            LineForm::Text(_) => write_qualifier(coord, spread, out),
            LineForm::Json => write_qualifier_json(self.alloc, coord, spread, out),
        }
    }

    /// Writes the line of a qualifier, if the box lacks it.
    #[tactic(auto, unfolding(crate::specs::SurveyForm::lacking_in))]
    pub fn write_lacking<W: Write + Drop>(
        &self,
        lacking: bool,
        coord: Coord,
        out: &mut W,
    ) -> io::Result<()>
        ensures { Writes W.contents out.old out.new result (lacking_in (form_seen self.now) lacking coord) }
    {
        if !lacking {
            return Ok(());
        }
        match self.lines {
            LineForm::Text(_) => write_lacks(coord, out),
            LineForm::Json => write_lacks_json(self.alloc, coord, out),
        }
    }

    /// Writes the line of a table that is refused.
    #[tactic(auto, unfolding(crate::specs::SurveyForm::refused_in))]
    pub fn write_refused<W: Write + Drop>(&self, fault: &ToolFault, out: &mut W) -> io::Result<()>
        ensures { Writes W.contents out.old out.new result (refused_in (form_seen self.now) fault.now) }
    {
        match self.lines {
            LineForm::Text(_) => fault_text(fault, out),
            LineForm::Json => write_refused_json(self.alloc, self.paths, fault, out),
        }
    }
}
