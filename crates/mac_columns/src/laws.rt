// Laws of the frames of columns.
ghost use Rattle.std.specs.Prelude.{◌≡◌, ℕ, ◌≤◌, Bool, List, ◌∷◌, ◌++◌, length, filter, filter_map, reverse, All, IfSome, option_to_list};
ghost use Rattle.std.specs.List.{flat_map};
ghost use Rattle.mac_columns.specs.declared.column.Column.{Column};
ghost use Rattle.mac_columns.specs.Items.{Item, item_columns, item_frame};
ghost use Rattle.mac_columns.specs.RunPlaces.{clear_frames, erased};
ghost use Rattle.mac_columns.specs.Frames.{is_within, open_frame, outcome, ended_frame, gathered, frames_of, runs};

/// The frames of columns are the octets of their runs that have at most 16,384 octets.
pub fn frames_are_runs()
    ensures { (columns : List Column) → frames_of columns ≡ filter is_within (runs columns) }
{}

/// Frames and ordered sets that are sent one after the other, each with its gap, give the frames
/// back and no others.
pub fn frames_come_back()
    ensures { (items : List Item) → All (λ item. IfSome (item_frame item) (λ octets. length octets ≤ 16384)) items
        → frames_of (flat_map item_columns items) ≡ filter_map item_frame items }
{}

/// One more column adds at most one outcome, and at most one frame, to those of the columns
/// before it.
pub fn one_more_column()
    ensures outcome { (past : List Column) (column : Column)
        → gathered (reverse (column ∷ past)) ≡ gathered (reverse past) ++ option_to_list (outcome (open_frame past) column) }
    ensures frame { (past : List Column) (column : Column)
        → frames_of (reverse (column ∷ past)) ≡ frames_of (reverse past) ++ option_to_list (ended_frame (column ∷ past)) }
{}

/// Where an Error stands in place of each column that isn't clear, the frames are those all of whose
/// columns are clear.
pub fn erased_columns_break_frames()
    ensures { (clear : ℕ → Bool) (columns : List Column)
        → frames_of (erased clear 0 columns) ≡ clear_frames clear columns }
{}
