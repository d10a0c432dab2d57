//! Laws of bodies. Each function does nothing, and its clause is the law. That the names of an
//! object rise and its numbers have 64 bits, at every level, is so of every value in memory.
ghost use Rattle.std.specs.Prelude.{◌<◌, ◌+◌, ℕ};
ghost use Rattle.kj_value.specs.Json.{members_of};
ghost use Rattle.kj_value.specs.Fields.{Pairs};
ghost use Rattle.kj_value.specs.Sound.{AreRising};
ghost use Rattle.struct_schema.specs.Shape.{Shape};
ghost use Rattle.hub_cells.specs.declared.allowed.TheConstants.{STORED_LEVELS};
ghost use Rattle.hub_cells.specs.Side as sides;
ghost use Rattle.hub_cells.specs.Level.{Level};
ghost use Rattle.hub_cells.specs.Fit.{Fit, IsFitted};
ghost use Rattle.hub_rules.specs.Rule.{Rules, inner_depth};
ghost use Rattle.hub_fit.specs.Chosen.{fit_of};
ghost use Rattle.keep_laws.specs.Whole.{Held, Ready, IsWholeOnSide, marks_of};
ghost use Rattle.keep_laws.specs.Settle.{IsAllowed, AreSet, settled, converted};
ghost use Rattle.keep_laws.specs.Known.{IsKnown};
ghost use Rattle.keep_laws.specs.Words.{IsSettledObject};
ghost use Rattle.keep_laws.specs.FittedBody.{IsBodyOf, HasRoom, IsWholeObject};

/// The level knows every name of a body and allows each of its tuples, and each name that has a default
/// is there, whatever entries stand beside it; and an object of which this is so is a body.
pub fn body_in_words()
    ensures known { (d : sides.Side) (f : Fit) (x : Pairs) → IsFitted f → AreRising (members_of x)
        → IsBodyOf d f x → IsKnown d f.level x }
    ensures allowed { (d : sides.Side) (f : Fit) (x : Held) → IsFitted f
        → AreRising (members_of x.fields) → IsBodyOf d f x.fields
        → IsAllowed d f.level (marks_of d f.level x) }
    ensures set { (d : sides.Side) (f : Fit) (x : Held) → IsFitted f
        → AreRising (members_of x.fields) → IsBodyOf d f x.fields
        → AreSet d f.level (marks_of d f.level x) }
    ensures back { (d : sides.Side) (f : Fit) (x : Held) → IsFitted f → HasRoom f
        → IsKnown d f.level x.fields → IsAllowed d f.level (marks_of d f.level x)
        → AreSet d f.level (marks_of d f.level x) → IsBodyOf d f x.fields }
{}

/// The fields of a whole object in which each name that has a default is there are a body of its side.
pub fn whole_is_body()
    ensures { (d : sides.Side) (f : Fit) (x : Held) → IsFitted f → HasRoom f
        → IsWholeOnSide d f.level x → AreSet d f.level (marks_of d f.level x) → IsBodyOf d f x.fields }
{}

/// An object in which each name that has a default is there is whole exactly where its fields are a
/// body, and its entries are in order and all alive.
pub fn whole_objects()
    ensures means { (d : sides.Side) (f : Fit) (x : Held) → IsFitted f → HasRoom f
        → IsWholeOnSide d f.level x → AreSet d f.level (marks_of d f.level x) → IsWholeObject d f x }
    ensures back { (d : sides.Side) (f : Fit) (x : Held) → IsFitted f
        → AreRising (members_of x.fields) → IsWholeObject d f x → IsWholeOnSide d f.level x }
{}

/// What comes over from an object with a body is whole, and its fields are a body of the other side
/// where each name that has a default is there; and without its dead entries the object itself is whole.
pub fn coming_over()
    ensures converted { (d : sides.Side) (f : Fit) (x : Held) → IsFitted f → HasRoom f
        → AreRising (members_of x.fields) → IsBodyOf d f x.fields
        → AreSet (sides.other d) f.level (marks_of (sides.other d) f.level (converted d f.level x))
        → IsBodyOf (sides.other d) f (converted d f.level x).fields }
    ensures over { (d : sides.Side) (f : Fit) (x : Held) → IsFitted f
        → AreRising (members_of x.fields) → IsBodyOf d f x.fields
        → IsWholeOnSide (sides.other d) f.level (converted d f.level x) }
    ensures settled { (d : sides.Side) (f : Fit) (x : Held) → IsFitted f
        → AreRising (members_of x.fields) → IsBodyOf d f x.fields
        → IsWholeOnSide d f.level (settled d f.level x) }
{}

/// Every name of a whole object is known, each tuple allowed, and its entries are in order and all
/// alive, the names of each part rising.
pub fn whole_in_words()
    ensures { (d : sides.Side) (l : Level) (x : Held) → Ready l → IsWholeOnSide d l x
        → IsSettledObject d l x }
{}

/// The levels that rules mean have room where the names that lead to them and those of the rules'
/// inner objects are fewer than 64.
pub fn room_of_rules()
    ensures { (n : ℕ) (s h : Shape) (rs : Rules) → n + inner_depth rs < STORED_LEVELS
        → HasRoom (fit_of n s h rs) }
{}
