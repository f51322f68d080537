//! A reporter that prints in a style.
ghost use Rattle.std.specs.Prelude.{◌≡◌, ◌≤◌, ◌+◌, ◌++◌, ◌∷◌, [], ℕ, List, None, true, false, length, take, drop, IfNone, IfOk, IfSome, OnErr, OnOk};
ghost use Rattle.std.specs.Str.{IsUtf8};
ghost use Rattle.defmt_listen.specs.Heard.{IsSettled};
ghost use Rattle.defmt_recording.specs.Output.{is_fault};
ghost use Rattle.defmt_recording.specs.Styled.{by_style, counted, is_cut, look_by, reel, reel_behind, styled_line};
ghost use Rattle.defmt_decode.specs.Event.{line_with};

use crate::host_listener::HostListener;
use crate::output::{counted, gap_between, is_cut, is_fault, last_behind};
use crate::statement::is_whole;
use crate::styles::{add_styled_line, add_styled_text, fails_at, is_failing, prints_index};
use crate::templates::{add_by_template, learn, place_by_template, template_at};
use defmt_decode::{Event, Origin};
use defmt_forms::Template;
use defmt_intern::Table;
use defmt_listen::{Passing, Reporter};
use defmt_places::Places;
use defmt_words::Style;
use dl_io::{Bytes, Memory};
use std::alloc::Global;
use std::marker::Model;

/// Prints the line of each event in a style, but of the lines that rules don't show, and in front of a line how many frames are missing
/// since the last. Counts the lines that make the program fail, and the fronts and tails.
#[derive(Drop)]
pub struct Styled<'a> {
    pub(crate) style: &'a Style,
    pub(crate) table: &'a Table,
    pub(crate) places: &'a Places,
    pub(crate) last: Option<u16>,
    pub(crate) failing: u64,
    pub(crate) cuts: u64,
    // Whether each line's text and a newline are printed of it, where it is printed: a plain one without places, of which none is counted.
    whole: bool,
    // What is printed of one event without a template, before it is appended.
    line: Bytes,
    // The templates of the lines that were printed, each at its index.
    templates: Vec<Option<Template>>,
}

impl<'a> Model for Styled<'a> {
    ghost use Rattle.std.specs.Prelude.{◌≡◌, true, None};
    ghost use Rattle.defmt_recording.specs.Styled.{IsWhole, Reel, look_by, reel, reel_code};
    ghost use Rattle.defmt_recording.specs.Templates.{AreTemplates};

    ghost Value = { Reel };

    ghost coded = { reel_code };

    ghost view = { λ s. reel (look_by s.style.now s.table.now.entries s.places.now) s.last s.failing s.cuts };

    ghost invariant = { λ s. (s.whole ≡ true → IsWhole s.style.now s.places.now)
        × AreTemplates s.style.now s.table.now.entries s.places.now s.templates.items };
}

impl<'a> Styled<'a> {
    /// A reporter by this style, this table and these places, which saw no event yet. Takes no memory.
    pub fn new(alloc: Global, style: &'a Style, table: &'a Table, places: &'a Places) -> Self
        ensures { result ≡ reel (look_by style.now table.now.entries places.now) None 0 0 }
    {
        Styled {
            style,
            table,
            places,
            last: None,
            failing: 0,
            cuts: 0,
            whole: is_whole(style, places),
            line: Bytes::new(alloc),
            templates: Vec::new(alloc),
        }
    }

    // Goes on behind an event.
    fn go_on(&mut self, event: &Event)
        ensures { self.new ≡ reel_behind self.old event.now }
    {
        self.last = last_behind(self.last, event);
        self.failing = counted(self.failing, is_failing(self.style, self.table, event));
        self.cuts = counted(self.cuts, is_cut(event));
    }

    // Appends what is printed of a line, where its template tells that, and answers whether it did: the line is printed and none is missing
    // in front of it. Else nothing was appended, nor on want of memory.
    fn add_known(&self, origin: &Origin, text: &[u8], out: &mut Bytes) -> Result<bool, Memory>
        ensures done { IfOk result (λ so. so ≡ true → out.new.items ≡ out.old.items
            ++ styled_line self.now.look self.now.last (line_with origin.now text.now)) }
        ensures same { IfOk result (λ so. so ≡ false → out.new.items ≡ out.old.items) }
        ensures err { OnErr result (out.new.items ≡ out.old.items) }
    {
        if gap_between(self.last, origin.place) != 0 {
            return Ok(false);
        }
        if !prints_index(self.style, self.table, origin.index) {
            return Ok(false);
        }
        match template_at(&self.templates, origin.index) {
            Some(template) => add_by_template(self.style.form, template, &origin.parts, text, out),
            None => Ok(false),
        }
    }

    // Makes the template of an index, where there is none and lines are printed by one.
    fn learn(&mut self, alloc: Global, index: u16) -> Result<(), Memory>
        ensures { self.new ≡ self.old }
    {
        if self.whole {
            return Ok(());
        }
        learn(
            alloc,
            self.style,
            self.table,
            self.places,
            &mut self.templates,
            index,
        )
    }

    // Appends what is printed of any line. On want of memory nothing was appended, and the reporter is as before.
    #[inline(never)]
    fn add_any(
        &mut self,
        alloc: Global,
        origin: Origin,
        text: &[u8],
        out: &mut Bytes,
    ) -> Result<(), Memory>
        ensures appended { OnOk result (out.new.items ≡ out.old.items
            ++ styled_line self.old.look self.old.last (line_with origin text.now)) }
        ensures moved { OnOk result (self.new ≡ reel_behind self.old (line_with origin text.now)) }
        ensures err { OnErr result (out.new.items ≡ out.old.items) }
        ensures same { OnErr result (self.new ≡ self.old) }
    {
        self.learn(alloc, origin.index)?;
        self.line.clear();
        add_styled_text(
            alloc,
            self.style,
            self.table,
            self.places,
            self.last,
            &origin,
            text,
            &mut self.line,
        )?;
        out.extend_from_slice(self.line.as_slice())?;
        self.go_on_behind(&origin);
        Ok(())
    }

    // Makes of the text of a line what is printed of it, where it stands, and answers where that ends, if its template tells that or nothing is
    // printed, and none is missing in front of it. Else nothing was done.
    #[inline(always)]
    fn place_known(&self, origin: &Origin, text: &mut [u8], at: usize, size: usize) -> Option<usize>
        requires { at + size ≤ length text.old }
        ensures within { IfSome result (λ end. end ≤ length text.new) }
        ensures printed { IfSome result (λ end. take end text.new ≡ take at text.old
            ++ styled_line self.now.look self.now.last
            (line_with origin.now (take size (drop at text.old)))) }
        ensures text { IfNone result (text.new ≡ text.old) }
    {
        if gap_between(self.last, origin.place) != 0 {
            return None;
        }
        if !prints_index(self.style, self.table, origin.index) {
            return Some(at);
        }
        match template_at(&self.templates, origin.index) {
            Some(template) => {
                place_by_template(self.style.form, template, &origin.parts, text, at, size)
            }
            None => None,
        }
    }

    // Goes on behind a line with this origin.
    #[tactic(auto, unfolding(crate::specs::Styled::is_failing, crate::specs::Styled::is_cut, crate::specs::Output::last_behind))]
    fn go_on_behind(&mut self, origin: &Origin)
        ensures { (text : List ℕ) → self.new ≡ reel_behind self.old (line_with origin.now text) }
    {
        self.last = origin.place;
        if fails_at(self.style, self.table, origin.index) {
            self.failing = self.failing.saturating_add(1);
        }
    }
}

#[tactic(auto, unfolding(crate::specs::Output::is_fault, crate::specs::Output::last_behind, crate::specs::Output::gap_before, crate::specs::Styled::is_failing, crate::specs::Styled::is_cut))]
impl<'a, 't> Reporter<HostListener<'t>> for Styled<'a> {
    ghost reporting = { by_style };

    fn add_line(&mut self, alloc: Global, event: Event, out: &mut Bytes) -> Result<(), Memory>
        ensures appended { OnOk result (out.new.items
            ≡ out.old.items ++ styled_line self.old.look self.old.last event) }
        ensures moved { OnOk result (self.new ≡ reel_behind self.old event) }
        ensures err { OnErr result (out.new.items ≡ out.old.items) }
        ensures same { OnErr result (self.new ≡ self.old) }
    {
        self.line.clear();
        add_styled_line(
            alloc,
            self.style,
            self.table,
            self.places,
            self.last,
            &event,
            &mut self.line,
        )?;
        out.extend_from_slice(self.line.as_slice())?;
        self.go_on(&event);
        Ok(())
    }

    fn add_text(
        &mut self,
        alloc: Global,
        origin: Origin,
        text: &[u8],
        out: &mut Bytes,
    ) -> Result<(), Memory>
        requires { IsUtf8 text.now }
        ensures appended { OnOk result (out.new.items ≡ out.old.items
            ++ styled_line self.old.look self.old.last (line_with origin text.now)) }
        ensures moved { OnOk result (self.new ≡ reel_behind self.old (line_with origin text.now)) }
        ensures fine { is_fault (line_with origin text.now) ≡ false }
        ensures err { OnErr result (out.new.items ≡ out.old.items) }
        ensures same { OnErr result (self.new ≡ self.old) }
    {
        if self.add_known(&origin, text, out)? {
            self.go_on_behind(&origin);
            return Ok(());
        }
        self.add_any(alloc, origin, text, out)
    }

    #[inline(never)]
    fn print_in_place(
        &mut self,
        origin: &Origin,
        text: &mut [u8],
        at: usize,
        size: usize,
    ) -> Option<usize>
        requires { at + size ≤ length text.old }
        ensures within { IfSome result (λ end. end ≤ length text.new) }
        ensures printed { IfSome result (λ end. take end text.new ≡ take at text.old
            ++ styled_line self.old.look self.old.last
            (line_with origin.now (take size (drop at text.old)))) }
        ensures moved { IfSome result (λ _. self.new
            ≡ reel_behind self.old (line_with origin.now (take size (drop at text.old)))) }
        ensures fine { IfSome result (λ _. is_fault
            (line_with origin.now (take size (drop at text.old))) ≡ false) }
        ensures text { IfNone result (text.new ≡ text.old) }
        ensures same { IfNone result (self.new ≡ self.old) }
    {
        let end = self.place_known(origin, text, at, size)?;
        self.go_on_behind(origin);
        Some(end)
    }

    fn passes(&mut self, origin: &Origin) -> Passing
        ensures kept { result ≡ Passing.Kept → (text : List ℕ)
            → styled_line self.old.look self.old.last (line_with origin.now text) ≡ text ++ 10 ∷ [] }
        ensures left_out { result ≡ Passing.LeftOut → (text : List ℕ)
            → styled_line self.old.look self.old.last (line_with origin.now text) ≡ [] }
        ensures moved { IsSettled result → (text : List ℕ)
            → self.new ≡ reel_behind self.old (line_with origin.now text) }
        ensures fine { IsSettled result → (text : List ℕ)
            → is_fault (line_with origin.now text) ≡ false }
        ensures same { result ≡ Passing.Asked → self.new ≡ self.old }
    {
        if !self.whole || gap_between(self.last, origin.place) != 0 {
            return Passing::Asked;
        }
        self.last = origin.place;
        if prints_index(self.style, self.table, origin.index) {
            Passing::Kept
        } else {
            Passing::LeftOut
        }
    }

    fn is_fault(&self, event: &Event) -> bool
        ensures { result ≡ is_fault event.now }
    {
        is_fault(event)
    }
}
