//! How the items of a model are written.

/// How an item is written.
#[derive(Clone, Copy, Drop)]
pub struct ItemForm {
    /// Its head.
    pub head: &'static str,
    /// How many parts it has at least; an operation may have more.
    pub least: usize,
    /// How it is written.
    pub written: &'static str,
}

macro_rules! item {
    ($head:expr, $least:expr, $written:expr) => {
        ItemForm {
            head: $head,
            least: $least,
            written: $written,
        }
    };
}

/// The forms of items.
pub const ITEM_FORMS: [ItemForm; 6] = [
    item!("state", 1, "(state TYPE)"),
    item!("init", 1, "(init E)"),
    item!("command", 1, "(command E)"),
    item!("fun", 4, "(fun NAME ((p T) ..) TYPE BODY)"),
    item!("postfun", 4, "(postfun NAME ((p T) ..) TYPE BODY)"),
    item!(
        "op",
        3,
        "(op NAME ((p T) ..) TYPE (pre E) (next E) (post E))"
    ),
];

/// How an operation is written, for a note.
pub const OPERATION: &str = "an operation is `(op NAME ((p T) ..) T (pre E) (next E) (post E))`";

/// The hint on a command that is no list of calls.
pub const CALLS: &str = "hint: write a list of calls: `(command (list call (call a) (call b)))`";

/// Whether `head` heads a callback.
pub fn is_callback_head(head: &str) -> bool {
    matches!(head, "pre" | "next" | "post")
}

/// The form of the items with the head `head`.
pub fn find_item_form(head: &str) -> Option<ItemForm> {
    for form in ITEM_FORMS.as_slice() {
        if form.head == head {
            return Some(*form);
        }
    }
    None
}

/// Words of other languages, and the head of the items that they mean.
const FOREIGN: [(&str, &str); 22] = [
    ("operation", "op"),
    ("action", "op"),
    ("method", "op"),
    ("procedure", "op"),
    ("transition", "op"),
    ("function", "fun"),
    ("func", "fun"),
    ("fn", "fun"),
    ("def", "fun"),
    ("define", "fun"),
    ("defun", "fun"),
    ("helper", "fun"),
    ("calls", "command"),
    ("gen", "command"),
    ("generate", "command"),
    ("generator", "command"),
    ("initial", "init"),
    ("start", "init"),
    ("var", "state"),
    ("vars", "state"),
    ("variables", "state"),
    ("type", "state"),
];

/// The head of the items that `word`, a word of another language, means.
pub fn item_head_for_foreign_word(word: &str) -> Option<&'static str> {
    for (foreign, head) in FOREIGN.as_slice() {
        if *foreign == word {
            return Some(*head);
        }
    }
    None
}
