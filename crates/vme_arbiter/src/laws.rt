ghost use Rattle.std.specs.Prelude.{◌≡◌, ◌≢◌, ◌≤◌, ◌↔◌, ◌⊎◌, ◌++◌, ◌∷◌, [], ℕ, length, List, Option, Some, None, IsTrue, All, Contains};
ghost use Rattle.vme_object.specs.declared.history.Entry.{Entry};
ghost use Rattle.vme_object.specs.History.{replay, IsLegal};
ghost use Rattle.vme_arbiter.specs.declared.command.ArbCmd.{ArbCmd};
ghost use Rattle.vme_arbiter.specs.declared.command.ArbCmd.TheVariants.{Look};
ghost use Rattle.vme_arbiter.specs.declared.command.ArbReply.{ArbReply};
ghost use Rattle.vme_arbiter.specs.declared.command.ArbReply.TheVariants.{Granted, Freed, Denied};
ghost use Rattle.vme_arbiter.specs.declared.kind.ArbiterKind.{ArbiterKind};
ghost use Rattle.vme_arbiter.specs.declared.kind.ArbiterKind.TheVariants.{Rotating};
ghost use Rattle.vme_arbiter.specs.Levels.{level_order, levels_before};
ghost use Rattle.vme_arbiter.specs.Requests.{BusRequest, is_slot, next_request, with_request, without_slot, is_level};
ghost use Rattle.vme_arbiter.specs.Grants.{IsNext};
ghost use Rattle.vme_arbiter.specs.Arbitration.{Arbitration, opening_bus, arbiter_step};
ghost use Rattle.vme_arbiter.specs.Orderly.{IsBySlot, IsOrderly};
ghost use Rattle.vme_arbiter.specs.Shares.{grant_of, grants_in, Waits};
ghost use Rattle.vme_arbiter.specs.Masters.{slot_of, HasTheBus, may_give, MatchesReply, FollowReplies};

/// States which request is granted next: the one on the first level in the order from `first`, and
/// on that level the one of the lowest slot. Each set of requests on levels in range that is not
/// empty has exactly one request that is granted next.
pub fn first_level_then_lowest_slot()
    ensures next { (first : ℕ) (pending : List BusRequest) (next : BusRequest) →
        IsTrue (is_level first) → All (λ r. IsTrue (is_level r.level)) pending →
        (next_request (level_order first) pending ≡ Some next) ↔ IsNext (level_order first) pending next }
    ensures none { (first : ℕ) (pending : List BusRequest) →
        IsTrue (is_level first) → All (λ r. IsTrue (is_level r.level)) pending →
        (next_request (level_order first) pending ≡ None) ↔ (pending ≡ []) }
    ensures alone { (first : ℕ) (pending : List BusRequest) (a b : BusRequest) →
        IsNext (level_order first) pending a → IsNext (level_order first) pending b → a ≡ b }
{}

/// States that the list of pending requests is a set. Adding a request keeps all that are in the
/// set. Removing a slot removes its requests and keeps those of all other slots. Two lists sorted
/// by slot with the same requests are equal.
pub fn pending_requests_are_a_set()
    ensures added { (pending : List BusRequest) (new r : BusRequest) →
        Contains (with_request new pending) r ↔ ((r ≡ new) ⊎ Contains pending r) }
    ensures taken_out { (pending : List BusRequest) (slot : ℕ) (r : BusRequest) →
        Contains (without_slot slot pending) r ↔ (Contains pending r × (r.slot ≢ slot)) }
    ensures same { (a b : List BusRequest) → IsBySlot a → IsBySlot b →
        ((r : BusRequest) → Contains a r ↔ Contains b r) → a ≡ b }
{}

/// States that every reachable state of an arbiter of either kind is orderly, and that each command
/// keeps this. The first level is in range, and 3 by priority. The holder and the requests are in
/// range, the holder has no pending request, no slot has two, and none is pending while the bus is
/// free. No command changes the kind.
pub fn states_are_orderly()
    ensures all { (kind : ArbiterKind) (h : List (Entry ArbCmd ArbReply)) →
        IsOrderly (replay arbiter_step (opening_bus kind) h) }
    ensures step { (bus : Arbitration) (cmd : ArbCmd) → IsOrderly bus → IsOrderly (arbiter_step bus cmd).0 }
    ensures kind { (bus : Arbitration) (cmd : ArbCmd) → (arbiter_step bus cmd).0.kind ≡ bus.kind }
{}

/// States that the replies show the holder. Only the holder has the reply `Granted`, and a check by
/// the holder has it. The reply `Freed` is for the slot that held the bus; after any other reply
/// the holder stays.
pub fn replies_show_the_holder()
    ensures granted { (bus : Arbitration) (cmd : ArbCmd) →
        (arbiter_step bus cmd).1 ≡ Granted → (arbiter_step bus cmd).0.holder ≡ Some (slot_of cmd) }
    ensures looks { (bus : Arbitration) (slot : ℕ) →
        bus.holder ≡ Some slot → (arbiter_step bus (Look slot)).1 ≡ Granted }
    ensures freed { (bus : Arbitration) (cmd : ArbCmd) →
        (arbiter_step bus cmd).1 ≡ Freed → bus.holder ≡ Some (slot_of cmd) }
    ensures stays { (bus : Arbitration) (cmd : ArbCmd) (slot : ℕ) → bus.holder ≡ Some slot →
        (arbiter_step bus cmd).1 ≢ Freed → (arbiter_step bus cmd).0.holder ≡ Some slot }
{}

/// States that at most one slot has the bus. In a legal history, a slot with a reply `Granted` and
/// no later `Freed` is the holder. There is at most one slot of this kind, and no other slot has
/// the reply `Granted` or `Freed` next.
pub fn one_slot_has_the_bus()
    ensures holder { (kind : ArbiterKind) (h : List (Entry ArbCmd ArbReply)) (slot : ℕ) →
        IsLegal arbiter_step (opening_bus kind) h → HasTheBus slot h →
        (replay arbiter_step (opening_bus kind) h).holder ≡ Some slot }
    ensures alone { (kind : ArbiterKind) (h : List (Entry ArbCmd ArbReply)) (a b : ℕ) →
        IsLegal arbiter_step (opening_bus kind) h → HasTheBus a h → HasTheBus b h → a ≡ b }
    ensures granted { (kind : ArbiterKind) (h : List (Entry ArbCmd ArbReply)) (next : Entry ArbCmd ArbReply) (slot : ℕ) →
        IsLegal arbiter_step (opening_bus kind) (h ++ next ∷ []) → HasTheBus slot h →
        next.reply ≡ Granted → slot_of next.cmd ≡ slot }
    ensures freed { (kind : ArbiterKind) (h : List (Entry ArbCmd ArbReply)) (next : Entry ArbCmd ArbReply) (slot : ℕ) →
        IsLegal arbiter_step (opening_bus kind) (h ++ next ∷ []) → HasTheBus slot h →
        next.reply ≡ Freed → slot_of next.cmd ≡ slot }
{}

/// States that the last reply to a slot describes whether the slot holds the bus or waits. This
/// holds after each command: a command of the slot that is allowed after its last reply, and a
/// command of any other slot. A slot whose last reply is `Granted` is the holder.
pub fn replies_show_who_waits()
    ensures opening { (kind : ArbiterKind) (slot : ℕ) → MatchesReply (opening_bus kind) slot None }
    ensures own { (bus : Arbitration) (slot : ℕ) (last : Option ArbReply) (cmd : ArbCmd) →
        IsOrderly bus → IsTrue (is_slot slot) → MatchesReply bus slot last →
        IsTrue (may_give slot last cmd) →
        MatchesReply (arbiter_step bus cmd).0 slot (Some (arbiter_step bus cmd).1) }
    ensures other { (bus : Arbitration) (slot : ℕ) (last : Option ArbReply) (cmd : ArbCmd) →
        slot_of cmd ≢ slot → MatchesReply bus slot last →
        MatchesReply (arbiter_step bus cmd).0 slot last }
    ensures holder { (bus : Arbitration) (slot : ℕ) →
        MatchesReply bus slot (Some Granted) → bus.holder ≡ Some slot }
{}

/// States that no reply is `Denied` if each master has a slot of its own and follows the replies.
pub fn no_command_is_denied()
    ensures { (kind : ArbiterKind) (k : ℕ) (slots : ℕ → ℕ) (h : List (Entry ArbCmd ArbReply)) →
        IsLegal arbiter_step (opening_bus kind) h → FollowReplies k slots h → All (λ e. e.reply ≢ Denied) h }
{}

/// States how many grants precede that of a waiting request at a rotating arbiter, if the request
/// is that of the lowest slot on its level. The bus is granted only on other levels, at most once
/// for each level that precedes its own in the order of the next grant, and at most three times.
/// Each grant makes its slot the holder, and each new holder comes from a grant.
pub fn at_most_three_go_before()
    ensures granted { (bus : Arbitration) (cmd : ArbCmd) (r : BusRequest) → grant_of bus cmd ≡ Some r →
        (arbiter_step bus cmd).0.holder ≡ Some r.slot }
    ensures every { (bus : Arbitration) (cmd : ArbCmd) (slot : ℕ) → bus.holder ≢ Some slot →
        (arbiter_step bus cmd).0.holder ≡ Some slot →
        (r : BusRequest) × (grant_of bus cmd ≡ Some r) × (r.slot ≡ slot) }
    ensures elsewhere { (bus : Arbitration) (r : BusRequest) (h : List (Entry ArbCmd ArbReply)) →
        IsOrderly bus → bus.kind ≡ Rotating → Waits bus r h →
        All (λ grant. grant.level ≢ r.level) (grants_in bus h) }
    ensures by_order { (bus : Arbitration) (r : BusRequest) (h : List (Entry ArbCmd ArbReply)) →
        IsOrderly bus → bus.kind ≡ Rotating → Waits bus r h →
        length (grants_in bus h) ≤ levels_before (level_order bus.first) r.level }
    ensures three { (bus : Arbitration) (r : BusRequest) (h : List (Entry ArbCmd ArbReply)) →
        IsOrderly bus → bus.kind ≡ Rotating → Waits bus r h → length (grants_in bus h) ≤ 3 }
{}
