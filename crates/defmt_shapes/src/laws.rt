//! Laws of what texts spell.

ghost use Rattle.std.specs.Prelude.{◌≡◌, ◌⊎◌, List, [], ℕ, Option};
ghost use Rattle.defmt_grammar.specs.Cut.{skip_spaces};
ghost use Rattle.defmt_grammar.specs.declared.language.Language.{Language};
ghost use Rattle.defmt_shapes.specs.Shape.{Shape, Shapes, Items, no_shapes, shape, no_items, item, SpellsShape, SpellsShapes, SpellsItems, HeadShape};
ghost use Rattle.defmt_shapes.specs.Spelling.{HeadItem, SameHead, FirstShape, FirstItem};

/// A text spells at most one value, one list of values and one list of elements.
pub fn one_shape()
    ensures value { (language : Language) (text : List ℕ) (s t : Shape)
        → SpellsShape language text s → SpellsShape language text t
        → s ≡ t }
    ensures values { (language : Language) (text : List ℕ) (ss ts : Shapes)
        → SpellsShapes language text ss
        → SpellsShapes language text ts → ss ≡ ts }
    ensures elements { (language : Language) (text : List ℕ) (items others : Items)
        → SpellsItems language text items
        → SpellsItems language text others → items ≡ others }
{}

/// A text begins with at most one value.
pub fn one_head()
    ensures { (language : Language) (text rest tail : List ℕ) (s t : Shape)
        → HeadShape language text s rest
        → HeadShape language text t tail → SameHead s t rest tail }
{}

/// A text begins with a value, or with none.
pub fn some_head()
    ensures { (language : Language) (text : List ℕ)
        → ((s : Shape) × (rest : List ℕ) × HeadShape language text s rest)
        ⊎ ((s : Shape) (rest : List ℕ) → HeadShape language text s rest → ⊥) }
{}

/// Values are spelled one by one: behind the spaces stands the first, and what follows it spells the
/// others.
pub fn value_by_value()
    ensures first { (language : Language) (text : List ℕ) (s : Shape) (ss : Shapes)
        → SpellsShapes language text (shape s ss)
        → FirstShape language text s ss }
    ensures back { (language : Language) (text rest : List ℕ) (s : Shape) (ss : Shapes)
        → HeadShape language (skip_spaces text) s rest → SpellsShapes language rest ss
        → SpellsShapes language text (shape s ss) }
    ensures none { (language : Language) (text : List ℕ) → SpellsShapes language text no_shapes
        → skip_spaces text ≡ [] }
    ensures none_back { (language : Language) (text : List ℕ) → skip_spaces text ≡ []
        → SpellsShapes language text no_shapes }
{}

/// Elements are spelled one by one: behind the spaces stands the first, and what follows it spells the
/// others.
pub fn element_by_element()
    ensures first { (language : Language) (text : List ℕ) (v : Option ℕ) (ss : Shapes)
        (items : Items)
        → SpellsItems language text (item v ss items) → FirstItem language text v ss items }
    ensures back { (language : Language) (text rest : List ℕ) (v : Option ℕ) (ss : Shapes)
        (items : Items)
        → HeadItem language (skip_spaces text) v ss rest → SpellsItems language rest items
        → SpellsItems language text (item v ss items) }
    ensures none { (language : Language) (text : List ℕ) → SpellsItems language text no_items
        → text ≡ [] }
{}
