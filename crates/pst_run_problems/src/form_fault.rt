//! The first fault in the form of a case or a run, and its place.
ghost use Rattle.std.specs.Prelude.{◌≡◌, ◌+◌, ◌<◌, ◌^◌, option_copied, length, IfOk};
ghost use Rattle.std.specs.List.{list_all};
ghost use Rattle.pst_run_problems.specs.ItemForm as spec;
ghost use Rattle.pst_runs.specs.Forms.{section, are_two_to_four};
ghost use Rattle.pst_run_problems.specs.Places as places;

use pst_sexpr::{Form, node_of, word_of};
use std::alloc::{AllocError, Global};

/// A part of an item that begins with a word.
#[derive(Clone, Copy, Drop)]
pub enum RunSection {
    /// The commands before the branches.
    Prefix,
    /// The first branch of two.
    Left,
    /// The second branch of two.
    Right,
    /// The commands after the branches.
    Suffix,
    /// The lists of replies.
    Replies,
}

impl RunSection {
    /// The word that the part begins with.
    pub fn keyword(self) -> &'static str
        ensures { result.now ≡ spec.word self }
    {
        match self {
            RunSection::Prefix => "prefix",
            RunSection::Left => "left",
            RunSection::Right => "right",
            RunSection::Suffix => "suffix",
            RunSection::Replies => "replies",
        }
    }
}

/// The parts of a run that have a list of replies each: the prefix, the branches, and the suffix if it is written.
#[derive(Clone, Copy, Drop)]
pub struct PartsWithReplyLists {
    /// The number of branches.
    pub branches: usize,
    /// Whether the suffix is written.
    pub has_suffix: bool,
}

impl PartsWithReplyLists {
    /// The number of the parts.
    pub fn count(self) -> usize
        ensures { self.branches + 2 < 2 ^ 64 → result ≡ spec.count self }
    {
        let others = if self.has_suffix { 2 } else { 1 };
        self.branches.saturating_add(others)
    }
}

/// What is wrong with the form of an item. Numbers of trees count from 0, which is the head of a tree that has one.
#[derive(Clone, Copy, Drop)]
pub enum CaseFormFault {
    /// The item does not begin with `case` or `run`.
    OtherHead,
    /// This part is missing.
    Missing(RunSection),
    /// The tree with the number has to be this part, and begins otherwise.
    OtherPart(RunSection, usize),
    /// In the tree with the number, the tree with this number is no call.
    NoCall(usize, usize),
    /// The number of the branches in a `(branches ..)` tree is not 2 to 4.
    BranchCount(usize),
    /// The branch with the number, from 1, is no list.
    NoBranch(usize),
    /// In the branch with the number, the tree with this number is no call.
    NoBranchCall(usize, usize),
    /// The tree with the number is after the last part.
    Misplaced(usize),
    /// A run has this number of lists of replies, and these parts.
    ListCount(usize, PartsWithReplyLists),
    /// One of the lists of replies is no list.
    NoList,
    /// A run has this number of lists of times, and this number of branches.
    TimeListCount(usize, usize),
    /// One of the lists of times is no list.
    NoTimeList,
}

/// The parts of `form` after the word `word`, if it is a node that begins with this word.
pub fn parts_after_head_word<'a>(word: &str, form: &'a Form) -> Option<&'a [Form]>
    ensures { option_copied result ≡ section word.now form.now }
{
    let (first, parts) = node_of(form)?.split_first()?;
    if word_of(first)?.as_str() == word {
        Some(parts)
    } else {
        None
    }
}

/// Whether a tree is a node that begins with a word.
fn is_node_with_head_word(form: &Form) -> bool
    ensures { result ≡ spec.is_call form.now }
{
    match node_of(form) {
        Some([first, ..]) => word_of(first).is_some(),
        _ => false,
    }
}

/// The number of the first tree that is no call, if there is one.
fn find_first_non_call(forms: &[Form]) -> Option<usize>
    ensures { result ≡ spec.no_call forms.now }
{
    forms.iter().position(|form| !is_node_with_head_word(form))
}

/// The fault of the commands of the tree `place`, if they have one.
fn first_non_call_fault(place: usize, commands: &[Form]) -> Option<CaseFormFault>
    ensures { result ≡ spec.calls_fault place commands.now }
{
    let offset = find_first_non_call(commands)?;
    Some(CaseFormFault::NoCall(place, offset + 1))
}

/// The fault of the tree `place`, which has to be the part `wanted`.
fn case_section_fault(wanted: RunSection, place: usize, form: &Form) -> Option<CaseFormFault>
    ensures { result ≡ spec.section_fault wanted place form.now }
{
    match parts_after_head_word(wanted.keyword(), form) {
        Some(commands) => first_non_call_fault(place, commands),
        None => Some(CaseFormFault::OtherPart(wanted, place)),
    }
}

/// The fault of branch `number` of a `(branches ..)` tree.
fn branch_fault(number: usize, form: &Form) -> Option<CaseFormFault>
    ensures { result ≡ spec.branch_fault number form.now }
{
    let Some(commands) = node_of(form) else {
        return Some(CaseFormFault::NoBranch(number));
    };
    let offset = find_first_non_call(commands)?;
    Some(CaseFormFault::NoBranchCall(number, offset))
}

/// The first fault of branches, which are numbered from `number` on.
fn first_branch_fault_from(number: usize, forms: &[Form]) -> Option<CaseFormFault>
    requires { number + length forms.now < 2 ^ 32 }
    ensures { result ≡ spec.branches_from number forms.now }
{
    let (form, forms) = forms.split_first()?;
    branch_fault(number, form).or(first_branch_fault_from(number + 1, forms))
}

/// Whether the number of some branches is allowed.
fn is_allowed_branch_count(branches: &[Form]) -> bool
    ensures { result ≡ are_two_to_four branches.now }
{
    2 <= branches.len() && branches.len() <= 4
}

/// The fault of the branches of a `(branches ..)` tree.
fn branches_form_fault(branches: &[Form]) -> Option<CaseFormFault>
    ensures { result ≡ spec.branches_fault branches.now }
{
    if is_allowed_branch_count(branches) {
        first_branch_fault_from(1, branches)
    } else {
        Some(CaseFormFault::BranchCount(branches.len()))
    }
}

/// The fault of the first tree, whose number is `place`, after the last part.
fn extra_tree_fault(place: usize, forms: &[Form]) -> Option<CaseFormFault>
    ensures { result ≡ spec.after_all place forms.now }
{
    if forms.is_empty() {
        None
    } else {
        Some(CaseFormFault::Misplaced(place))
    }
}

/// Whether a tree is a list.
fn is_node_form(form: &Form) -> bool
    ensures { result ≡ spec.is_list form.now }
{
    node_of(form).is_some()
}

/// Whether each of some trees is a list.
fn are_node_forms(forms: &[Form]) -> bool
    ensures { result ≡ list_all spec.is_list forms.now }
{
    forms.iter().all(|form| is_node_form(form))
}

/// The fault of the lists of replies of a run with these parts.
fn reply_lists_fault(parts: PartsWithReplyLists, lists: &[Form]) -> Option<CaseFormFault>
    requires { parts.branches + 2 < 2 ^ 64 }
    ensures { result ≡ spec.lists_fault parts lists.now }
{
    if lists.len() != parts.count() {
        return Some(CaseFormFault::ListCount(lists.len(), parts));
    }
    if are_node_forms(lists) {
        None
    } else {
        Some(CaseFormFault::NoList)
    }
}

/// The fault of the lists of times of a run with these parts.
fn time_lists_fault(parts: PartsWithReplyLists, lists: &[Form]) -> Option<CaseFormFault>
    ensures { result ≡ spec.time_lists_fault parts lists.now }
{
    if lists.len() != parts.branches {
        return Some(CaseFormFault::TimeListCount(lists.len(), parts.branches));
    }
    if are_node_forms(lists) {
        None
    } else {
        Some(CaseFormFault::NoTimeList)
    }
}

/// The fault of the trees after the replies of a run. The first of them is tree `place`, and may be its times.
fn fault_after_replies(
    parts: PartsWithReplyLists,
    place: usize,
    forms: &[Form],
) -> Option<CaseFormFault>
    requires { place < 2 ^ 33 }
    ensures { result ≡ spec.times_fault parts place forms.now }
{
    let (form, more) = forms.split_first()?;
    match parts_after_head_word("times", form) {
        Some(lists) => extra_tree_fault(place + 1, more).or(time_lists_fault(parts, lists)),
        None => Some(CaseFormFault::Misplaced(place)),
    }
}

/// The fault of the tree `place`, which has to be the replies of a run, or of the trees after it.
fn replies_or_later_tree_fault(
    parts: PartsWithReplyLists,
    place: usize,
    form: &Form,
    more: &[Form],
) -> Option<CaseFormFault>
    requires room { parts.branches + 2 < 2 ^ 64 }
    requires small { place < 2 ^ 32 }
    ensures { result ≡ spec.replies_fault parts place form.now more.now }
{
    match parts_after_head_word(RunSection::Replies.keyword(), form) {
        Some(lists) => {
            fault_after_replies(parts, place + 1, more).or(reply_lists_fault(parts, lists))
        }
        None => Some(CaseFormFault::OtherPart(RunSection::Replies, place)),
    }
}

/// The fault of the trees after the suffix. The first of them is tree `place`.
fn fault_after_suffix(
    is_run: bool,
    parts: PartsWithReplyLists,
    place: usize,
    forms: &[Form],
) -> Option<CaseFormFault>
    requires room { parts.branches + 2 < 2 ^ 64 }
    requires small { place < 2 ^ 32 }
    ensures { result ≡ spec.end_fault is_run parts place forms.now }
{
    if !is_run {
        return extra_tree_fault(place, forms);
    }
    match forms.split_first() {
        Some((form, more)) => replies_or_later_tree_fault(parts, place, form, more),
        None => Some(CaseFormFault::Missing(RunSection::Replies)),
    }
}

/// The fault of the trees after the branches. The first of them is tree `place`.
fn fault_after_branches(
    is_run: bool,
    branches: usize,
    place: usize,
    forms: &[Form],
) -> Option<CaseFormFault>
    requires room { branches + 2 < 2 ^ 64 }
    requires small { place < 2 ^ 31 }
    ensures { result ≡ spec.rest_fault is_run branches place forms.now }
{
    if let Some((form, more)) = forms.split_first() {
        if let Some(commands) = parts_after_head_word(RunSection::Suffix.keyword(), form) {
            let parts = PartsWithReplyLists {
                branches,
                has_suffix: true,
            };
            return first_non_call_fault(place, commands).or(fault_after_suffix(
                is_run,
                parts,
                place + 1,
                more,
            ));
        }
    }
    let parts = PartsWithReplyLists {
        branches,
        has_suffix: false,
    };
    fault_after_suffix(is_run, parts, place, forms)
}

/// The fault of the trees after `(left ..)`.
fn fault_after_left(is_run: bool, forms: &[Form]) -> Option<CaseFormFault>
    ensures { result ≡ spec.right_fault is_run forms.now }
{
    match forms.split_first() {
        Some((form, more)) => {
            case_section_fault(RunSection::Right, 3, form).or(fault_after_branches(
                is_run, 2, 4, more,
            ))
        }
        None => Some(CaseFormFault::Missing(RunSection::Right)),
    }
}

/// The fault of the trees after the prefix.
fn fault_after_prefix(is_run: bool, forms: &[Form]) -> Option<CaseFormFault>
    ensures { result ≡ spec.after_prefix is_run forms.now }
{
    let Some((form, more)) = forms.split_first() else {
        return Some(CaseFormFault::Missing(RunSection::Left));
    };
    match parts_after_head_word("branches", form) {
        Some(branches) => {
            branches_form_fault(branches).or(fault_after_branches(is_run, branches.len(), 3, more))
        }
        None => case_section_fault(RunSection::Left, 2, form).or(fault_after_left(is_run, more)),
    }
}

/// The fault of the trees after the head of an item.
fn case_or_run_parts_fault(is_run: bool, forms: &[Form]) -> Option<CaseFormFault>
    ensures { result ≡ spec.parts_fault is_run forms.now }
{
    match forms.split_first() {
        Some((form, more)) => {
            case_section_fault(RunSection::Prefix, 1, form).or(fault_after_prefix(is_run, more))
        }
        None => Some(CaseFormFault::Missing(RunSection::Prefix)),
    }
}

/// The first fault in the form of an item. `None` if the tree has the form of a case or a run.
#[tactic(auto, unfolding(crate::specs::ItemForm::form_fault))]
pub fn first_case_or_run_form_fault(form: &Form) -> Option<CaseFormFault>
    ensures { result ≡ spec.form_fault form.now }
{
    if let Some(parts) = parts_after_head_word("case", form) {
        return case_or_run_parts_fault(false, parts);
    }
    match parts_after_head_word("run", form) {
        Some(parts) => case_or_run_parts_fault(true, parts),
        None => Some(CaseFormFault::OtherHead),
    }
}

/// The numbers that lead from an item to the tree that has the fault `fault`.
pub fn path_to_form_fault(alloc: Global, fault: CaseFormFault) -> Result<Vec<usize>, AllocError>
    ensures { IfOk result (λ path. path.items ≡ places.place fault) }
{
    match fault {
        CaseFormFault::OtherHead
        | CaseFormFault::Missing(_)
        | CaseFormFault::ListCount(_, _)
        | CaseFormFault::NoList
        | CaseFormFault::TimeListCount(_, _)
        | CaseFormFault::NoTimeList => Vec::from_slice(alloc, &[]),
        CaseFormFault::OtherPart(_, place) | CaseFormFault::Misplaced(place) => {
            Vec::from_slice(alloc, &[place])
        }
        CaseFormFault::NoCall(place, number) => Vec::from_slice(alloc, &[place, number]),
        CaseFormFault::BranchCount(_) => Vec::from_slice(alloc, &[2]),
        CaseFormFault::NoBranch(number) => Vec::from_slice(alloc, &[2, number]),
        CaseFormFault::NoBranchCall(number, offset) => Vec::from_slice(alloc, &[2, number, offset]),
    }
}
