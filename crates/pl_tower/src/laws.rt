//! What holds of every order of tools, of the heights of every print, and of every tower.
ghost use Rattle.std.specs.Prelude.{◌≡◌, ℤ, ℕ, ◌+◌, ◌<◌, ◌≤◌, ◌==◌, true, List, [], length, count_by, slice_get, slice_index, slice_index_or, if◌then◌else◌};
ghost use Rattle.std.specs.List.{All};
ghost use Rattle.std.specs.List.Sorted.{IsStrictlyIncreasing};
ghost use Rattle.pl_tower.specs.Tools.{has, IsToolSet, others, order_of};
ghost use Rattle.pl_tower.specs.Heights.{changes, last_tool, tool_before, tools_along};
ghost use Rattle.pl_tower.specs.Tower.{row_of};

/// A law: each used tool stands once in a height's order, and no other stands there; the first is the current one
/// where it is used; the others ascend; each is one of the four tools.
pub fn orders_are_the_used_tools()
    ensures once { (current used : ℕ) → IsToolSet used → (tool : ℕ) → count_by (λ t. t == tool) (order_of current used) ≡ (if has used tool then 1 else 0) }
    ensures first { (current used : ℕ) → IsToolSet used → has used current ≡ true → slice_get (order_of current used) 0 ≡ Some current }
    ensures ascending { (current used : ℕ) → IsStrictlyIncreasing (others current (order_of current used)) }
    ensures four { (current used : ℕ) → All (λ tool. tool < 4) (order_of current used) }
{}

/// A law: a height changes once to each of its tools but the current one, so it has at most four changes.
pub fn changes_are_the_others()
    ensures others { (current used : ℕ) → IsToolSet used → changes current (order_of current used) ≡ others current (order_of current used) }
    ensures few { (current used : ℕ) → IsToolSet used → length (changes current (order_of current used)) ≤ 4 }
{}

/// A law: there are as many lists of tools as heights, and each is the order of its set, where the current tool is the
/// last one of all heights below. Before the first height that is tool 0, and after each it is the last of its tools.
pub fn heights_go_on()
    ensures count { (used : List ℕ) → length (tools_along 0 used) ≡ length used }
    ensures order { (used : List ℕ) (i : ℕ) → i < length used → slice_index_or (tools_along 0 used) i [] ≡ order_of (tool_before (tools_along 0 used) i) (slice_index used i) }
    ensures before { (heights : List (List ℕ)) → tool_before heights 0 ≡ 0 }
    ensures after { (heights : List (List ℕ)) (i : ℕ) → i < length heights → tool_before heights (i + 1) ≡ last_tool (tool_before heights i) (slice_index_or heights i []) }
    ensures four { (used : List ℕ) → All (λ tools. All (λ tool. tool < 4) tools) (tools_along 0 used) }
{}

/// A law: no row is wiped twice at a height, so neither two changes nor two strokes of one change share a row.
pub fn rows_are_wiped_once()
    ensures change { (y : ℤ) (b c j k : ℕ) → j < 4 → k < 4 → row_of y b j ≡ row_of y c k → b ≡ c }
    ensures stroke { (y : ℤ) (b c j k : ℕ) → j < 4 → k < 4 → row_of y b j ≡ row_of y c k → j ≡ k }
{}
