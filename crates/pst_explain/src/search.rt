//! The search of an item: positions, and the commands that it tries there. Only the interleavings that count by the order
//! of the recorded times are searched.

use crate::position::{GraphPosition, recorded_order_of_item};
use pst_judge::{CallOrder, RecordedOrder};
use pst_scene::{Call, DeadEnd, Outcome, Scene, evaluate_initial_state, outcome_of_call_on_state};
use std::alloc::{AllocError, Global};

/// The search expands the first positions, up to this number, and those along the displayed interleaving.
const MOST_POSITIONS: usize = 300;

/// The target of a command.
#[derive(Drop)]
pub enum GraphMoveTarget<'a> {
    /// The command leads to the position with this number.
    Position(usize),
    /// The command cannot come next there.
    DeadEnd(DeadEnd<'a>),
}

/// A command that the search tries at a position.
#[derive(Drop)]
pub struct GraphMove<'a> {
    /// The number of the position.
    pub from: usize,
    /// The command.
    pub call: Call<'a>,
    /// The target of the command.
    pub target: GraphMoveTarget<'a>,
}

/// A search, or the beginning of one.
#[derive(Drop)]
pub struct SearchGraph<'a> {
    /// The positions that it met. The first is the one before all commands; the list is empty if the initial state
    /// faults.
    pub positions: Vec<GraphPosition>,
    /// The commands that it tried.
    pub moves: Vec<GraphMove<'a>>,
    /// The numbers of the moves along the displayed interleaving.
    pub shown: Vec<usize>,
}

/// The index of the position in `positions`.
fn index_of_position(positions: &[GraphPosition], wanted: &GraphPosition) -> Option<usize> {
    for (number, position) in positions.iter().enumerate() {
        if position.equals(wanted) {
            return Some(number);
        }
    }
    None
}

/// The number of the move that a command makes at a position, and the position that it leads to.
fn find_command_move_and_target_position(
    moves: &[GraphMove<'_>],
    from: usize,
    command: u32,
) -> Option<(usize, usize)> {
    for (number, step) in moves.iter().enumerate() {
        if step.from == from && step.call.number == command {
            return match step.target {
                GraphMoveTarget::Position(to) => Some((number, to)),
                GraphMoveTarget::DeadEnd(_) => None,
            };
        }
    }
    None
}

impl<'a> SearchGraph<'a> {
    /// A search without positions.
    fn empty(alloc: Global) -> SearchGraph<'a> {
        SearchGraph {
            positions: Vec::new(alloc),
            moves: Vec::new(alloc),
            shown: Vec::new(alloc),
        }
    }

    /// The number of the position. Adds the position if it is new.
    fn find_or_add_position(&mut self, position: GraphPosition) -> Result<usize, AllocError> {
        if let Some(number) = index_of_position(self.positions.as_slice(), &position) {
            return Ok(number);
        }
        let number = self.positions.len();
        self.positions.push(position)?;
        Ok(number)
    }

    /// Tries a command at position `from`.
    fn add_move_and_target_of_call(
        &mut self,
        alloc: Global,
        scene: &Scene<'a>,
        from: usize,
        position: &GraphPosition,
        call: Call<'a>,
    ) -> Result<(), AllocError> {
        let target = match outcome_of_call_on_state(alloc, scene, &position.state, &call)? {
            Outcome::Leads(state) => {
                let next = position.after_call(alloc, scene, call.part, state)?;
                GraphMoveTarget::Position(self.find_or_add_position(next)?)
            }
            Outcome::Refused(why) => GraphMoveTarget::DeadEnd(why),
        };
        self.moves.push(GraphMove { from, call, target })?;
        Ok(())
    }

    /// Tries each command that may come next at position `from`.
    fn add_next_moves_and_targets(
        &mut self,
        alloc: Global,
        scene: &Scene<'a>,
        order: &Option<RecordedOrder<'_>>,
        from: usize,
        position: &GraphPosition,
    ) -> Result<(), AllocError> {
        let next = position.next_calls(alloc, scene, order)?;
        for call in &next {
            self.add_move_and_target_of_call(alloc, scene, from, position, *call)?;
        }
        Ok(())
    }

    /// Expands position `from`: tries each command that may come next there.
    fn expand_position(
        &mut self,
        alloc: Global,
        scene: &Scene<'a>,
        order: &Option<RecordedOrder<'_>>,
        from: usize,
    ) -> Result<(), AllocError> {
        let Some(position) = self.positions.get(from) else {
            return Ok(());
        };
        let position = position.copy(alloc)?;
        self.add_next_moves_and_targets(alloc, scene, order, from, &position)
    }

    /// Expands the positions along the commands, and notes their moves.
    fn expand_along_calls_noting_shown_moves(
        &mut self,
        alloc: Global,
        scene: &Scene<'a>,
        order: &Option<RecordedOrder<'_>>,
        calls: &[Call<'_>],
    ) -> Result<(), AllocError> {
        let mut at = 0usize;
        self.expand_position(alloc, scene, order, at)?;
        for call in calls {
            let Some((number, next)) = find_command_move_and_target_position(
                self.moves.as_slice(),
                at,
                call.number,
            ) else {
                return Ok(());
            };
            self.shown.push(number)?;
            at = next;
            self.expand_position(alloc, scene, order, at)?;
        }
        Ok(())
    }

    /// Whether the search has tried a command at position `number`.
    pub fn has_moves_from_position(&self, number: usize) -> bool {
        self.moves.iter().any(|step| step.from == number)
    }

    /// Expands each position until there are more than `most`, and returns whether there are at most `most`.
    fn try_expanding_all_within_limit(
        &mut self,
        alloc: Global,
        scene: &Scene<'a>,
        order: &Option<RecordedOrder<'_>>,
        most: usize,
    ) -> Result<bool, AllocError> {
        for number in 0..most {
            if self.positions.len() > most {
                return Ok(false);
            }
            if !self.has_moves_from_position(number) {
                self.expand_position(alloc, scene, order, number)?;
            }
        }
        Ok(self.positions.len() <= most)
    }

    /// Expands those of the first `MOST_POSITIONS` positions that have no moves yet.
    fn expand_remaining_positions_up_to_limit(
        &mut self,
        alloc: Global,
        scene: &Scene<'a>,
        order: &Option<RecordedOrder<'_>>,
    ) -> Result<(), AllocError> {
        for number in 0..MOST_POSITIONS {
            if !self.has_moves_from_position(number) {
                self.expand_position(alloc, scene, order, number)?;
            }
        }
        Ok(())
    }
}

/// The search of an item along the commands of the displayed interleaving.
fn build_search_graph_along_calls<'a>(
    alloc: Global,
    scene: &Scene<'a>,
    order: &Option<RecordedOrder<'_>>,
    shown: &[Call<'_>],
) -> Result<SearchGraph<'a>, AllocError> {
    let mut search = SearchGraph::empty(alloc);
    let Some(state) = evaluate_initial_state(alloc, scene)? else {
        return Ok(search);
    };
    let first = GraphPosition::initial(alloc, scene, state)?;
    search.positions.push(first)?;
    search.expand_along_calls_noting_shown_moves(alloc, scene, order, shown)?;
    Ok(search)
}

/// The new number of position `number`, if only the positions `kept` stay.
fn position_number_among_kept(kept: &[usize], number: usize) -> usize {
    kept.iter().filter(|other| **other < number).count()
}

/// The numbers of the positions along the displayed interleaving.
fn position_numbers_along_shown_interleaving(
    alloc: Global,
    search: &SearchGraph<'_>,
) -> Result<Vec<usize>, AllocError> {
    let mut numbers = Vec::new(alloc);
    if !search.positions.is_empty() {
        numbers.push(0)?;
    }
    for number in &search.shown {
        if let Some(step) = search.moves.get(*number) {
            if let GraphMoveTarget::Position(to) = step.target {
                numbers.push(to)?;
            }
        }
    }
    Ok(numbers)
}

/// Whether a move is from one of the positions `kept`, and is along the displayed interleaving or
/// leads to a dead end.
fn is_move_kept(step: &GraphMove<'_>, is_shown: bool, kept: &[usize]) -> bool {
    kept.contains(&step.from) && (is_shown || matches!(step.target, GraphMoveTarget::DeadEnd(_)))
}

/// The target of a move, with its new number if only the positions `kept` stay.
fn renumbered_target<'a>(target: GraphMoveTarget<'a>, kept: &[usize]) -> GraphMoveTarget<'a> {
    match target {
        GraphMoveTarget::Position(to) => GraphMoveTarget::Position(position_number_among_kept(
            kept, to,
        )),
        GraphMoveTarget::DeadEnd(why) => GraphMoveTarget::DeadEnd(why),
    }
}

/// A move, with the new numbers of its positions if only the positions `kept` stay.
fn renumbered_move<'a>(step: GraphMove<'a>, kept: &[usize]) -> GraphMove<'a> {
    let GraphMove { from, call, target } = step;
    GraphMove {
        from: position_number_among_kept(kept, from),
        call,
        target: renumbered_target(target, kept),
    }
}

impl<'a> SearchGraph<'a> {
    /// Adds a move of a larger search, of which the positions `kept` stay, if the move is along the displayed
    /// interleaving or leads to a dead end.
    fn add_renumbered_move_if_kept(
        &mut self,
        step: GraphMove<'a>,
        is_shown: bool,
        kept: &[usize],
    ) -> Result<(), AllocError> {
        if !is_move_kept(&step, is_shown, kept) {
            drop(step);
            return Ok(());
        }
        let number = self.moves.len();
        self.moves.push(renumbered_move(step, kept))?;
        if is_shown {
            self.shown.push(number)?;
        }
        Ok(())
    }

    /// Adds those moves of a larger search, of which the positions `kept` stay, that are along the
    /// displayed interleaving or lead to a dead end. `shown` has the numbers of the former.
    fn add_renumbered_kept_moves(
        &mut self,
        moves: Vec<GraphMove<'a>>,
        shown: &[usize],
        kept: &[usize],
    ) -> Result<(), AllocError> {
        for (number, step) in moves.into_iter().enumerate() {
            self.add_renumbered_move_if_kept(step, shown.contains(&number), kept)?;
        }
        Ok(())
    }

    /// Adds those of the positions that have the numbers `kept`.
    fn add_kept_positions(
        &mut self,
        positions: Vec<GraphPosition>,
        kept: &[usize],
    ) -> Result<(), AllocError> {
        for (number, position) in positions.into_iter().enumerate() {
            if kept.contains(&number) {
                self.positions.push(position)?;
            }
        }
        Ok(())
    }
}

/// The search graph of the displayed interleaving and of the dead ends next to it.
pub fn build_interleaving_graph_with_dead_ends<'a>(
    alloc: Global,
    scene: &Scene<'a>,
    order: CallOrder,
    shown: &[Call<'_>],
) -> Result<SearchGraph<'a>, AllocError> {
    let recorded = recorded_order_of_item(alloc, order, scene)?;
    let search = build_search_graph_along_calls(alloc, scene, &recorded, shown)?;
    let kept = position_numbers_along_shown_interleaving(alloc, &search)?;
    let mut path = SearchGraph::empty(alloc);
    let SearchGraph {
        positions,
        moves,
        shown,
    } = search;
    path.add_kept_positions(positions, kept.as_slice())?;
    path.add_renumbered_kept_moves(moves, shown.as_slice(), kept.as_slice())?;
    Ok(path)
}

/// The search of an item from its initial state on. It first expands the positions along the displayed interleaving,
/// and then the others in the order in which it met them, up to the limit.
pub fn build_search_graph_up_to_limit<'a>(
    alloc: Global,
    scene: &Scene<'a>,
    order: CallOrder,
    shown: &[Call<'_>],
) -> Result<SearchGraph<'a>, AllocError> {
    let recorded = recorded_order_of_item(alloc, order, scene)?;
    let mut search = build_search_graph_along_calls(alloc, scene, &recorded, shown)?;
    search.expand_remaining_positions_up_to_limit(alloc, scene, &recorded)?;
    Ok(search)
}

/// The whole search of an item, if it has at most `most` positions. It first expands the positions along the displayed
/// interleaving. It has no positions if the initial state faults.
pub fn build_search_graph_if_small<'a>(
    alloc: Global,
    scene: &Scene<'a>,
    order: CallOrder,
    shown: &[Call<'_>],
    most: usize,
) -> Result<Option<SearchGraph<'a>>, AllocError> {
    let recorded = recorded_order_of_item(alloc, order, scene)?;
    let mut search = build_search_graph_along_calls(alloc, scene, &recorded, shown)?;
    if search.try_expanding_all_within_limit(alloc, scene, &recorded, most)? {
        Ok(Some(search))
    } else {
        Ok(None)
    }
}
