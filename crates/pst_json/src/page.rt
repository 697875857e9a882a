//! The page of `pst explain --format html`, in two parts: a page is [`BEFORE_DATA`], the JSON of the explanations, and
//! [`AFTER_DATA`]. `tools/page` writes this file from `assets/page.html`.

/// The page up to the JSON.
pub const BEFORE_DATA: &str = r##"<!DOCTYPE html>
<html lang="en">
<head>
<meta charset="utf-8">
<meta name="viewport" content="width=device-width, initial-scale=1">
<meta http-equiv="Content-Security-Policy" content="default-src 'none'; style-src 'sha256-AOUxHUujGZzrf7FBY24ZPQu5mez8hyzs5Qqq6AJ7RZ0='; script-src 'sha256-SkBqqdrS4vAbFVKZZygvQd7WaKcValwUoljo6OLqN/c='; base-uri 'none'; form-action 'none'">
<title>pst explain</title>
<style>
/* A color for each branch, and pairs of colors for wrong, right and doubtful. Each is doubled by a letter or a sign. */
:root {
  color-scheme: light dark;
  --page: #f6f6f3; --panel: #fff; --sunk: #f0f0ec; --line: #dfdfd9; --ink: #1d1f23; --soft: #63686f; --mark: #fbe9a6;
  --bad: #c0261c; --bad-panel: #fdeeec; --bad-line: #efb8b3; --good: #18794e; --good-panel: #e6f4ec; --warn: #8a5a00; --warn-panel: #fdf3dc;
  --L: #2259c4; --R: #b3500a; --S: #0d746c; --T: #7539d6; --alone: #5d636b;
  --sans: system-ui, -apple-system, "Segoe UI", Roboto, "Liberation Sans", "DejaVu Sans", sans-serif;
  --mono: ui-monospace, "SF Mono", "Cascadia Mono", Menlo, Consolas, "DejaVu Sans Mono", "Liberation Mono", monospace;
}
@media screen and (prefers-color-scheme: dark) { :root {
  --page: #121316; --panel: #1a1c20; --sunk: #23262b; --line: #303339; --ink: #e9e9e6; --soft: #a0a5ad; --mark: #5a4a10;
  --bad: #ff8178; --bad-panel: #351b1b; --bad-line: #74332f; --good: #5fce96; --good-panel: #15301f; --warn: #edc063; --warn-panel: #33290f;
  --L: #82aefa; --R: #f2a662; --S: #52c9ba; --T: #bba3fa; --alone: #a0a5ad;
} }
.part-P, .part-X { --part: var(--alone); } .part-L { --part: var(--L); } .part-R { --part: var(--R); } .part-S { --part: var(--S); } .part-T { --part: var(--T); }

* { box-sizing: border-box; } html { scroll-padding-top: 4rem; }
body { margin: 0; background: var(--page); color: var(--ink); font: 15px/1.5 var(--sans); }
h1, h2, h3, p, ol, dl, dd { margin: 0; padding: 0; } ol { list-style: none; } a { color: inherit; text-decoration: none; }
button { font: inherit; color: inherit; background: none; border: 0; padding: 0; text-align: inherit; cursor: pointer; }
code, .mono { font-family: var(--mono); font-size: .92em; overflow-wrap: anywhere; }
mark { background: var(--mark); color: var(--ink); border-radius: 3px; }
mark.gone { display: inline-block; width: 3px; height: 1em; background: var(--bad); vertical-align: -2px; }
:focus-visible { outline: 2px solid var(--L); outline-offset: 2px; border-radius: 6px; }
.soft, small { color: var(--soft); } .bad { color: var(--bad); } .good { color: var(--good); } .value { font-weight: 700; }
.unseen { position: absolute; width: 1px; height: 1px; overflow: hidden; clip-path: inset(50%); } .clip { max-height: 9.5rem; overflow: auto; }
.id { font: 700 .8em/1.5 var(--mono); color: var(--part); border: 1px solid; border-radius: 5px; padding: 0 .38em; white-space: nowrap; }
.badge { border-radius: 99px; padding: 0 .6em; font-size: .8rem; font-weight: 650; color: var(--bad); background: var(--bad-panel); }
.badge.right { color: var(--good); background: var(--good-panel); } .badge.doubtful { color: var(--warn); background: var(--warn-panel); }
.tool { border: 1px solid var(--line); border-radius: 7px; padding: .16rem .6rem; font-size: .85rem; color: var(--soft); background: var(--panel); white-space: nowrap; }
.tool:hover:not(:disabled) { color: var(--ink); border-color: var(--soft); } .tool:disabled { opacity: .4; cursor: default; }

/* The frame: a bar on top, the list of runs on the left, one run beside it. */
header { position: sticky; top: 0; z-index: 2; display: flex; gap: .7rem; align-items: center; padding: .5rem 1.25rem; background: var(--panel); border-bottom: 1px solid var(--line); }
#title { flex: 1; min-width: 0; overflow: hidden; text-overflow: ellipsis; white-space: nowrap; } #layout { display: grid; grid-template-columns: 17.5rem minmax(0, 1fr); max-width: 92rem; margin: 0 auto; }
#layout.single { grid-template-columns: minmax(0, 1fr); max-width: 72rem; } .single nav, #menu { display: none; }
nav { position: sticky; top: 3rem; height: calc(100vh - 3rem); display: flex; flex-direction: column; padding: 1rem 0 0 1.25rem; }
nav input { width: 100%; font: inherit; font-size: .9rem; padding: .35rem .6rem; border: 1px solid var(--line); border-radius: 8px; background: var(--panel); color: var(--ink); }
.tabs { display: flex; margin: .5rem 0; padding: 2px; background: var(--sunk); border-radius: 8px; font-size: .85rem; }
.tabs button { flex: 1; text-align: center; padding: .15rem; border-radius: 6px; color: var(--soft); }
.tabs [aria-pressed=true] { background: var(--panel); color: var(--ink); font-weight: 600; }
#list { overflow-y: auto; flex: 1; padding: 2px 4px 1rem 2px; font-size: .86rem; }
#list li { content-visibility: auto; contain-intrinsic-size: auto 52px; } #list a { display: block; padding: .38rem .6rem; border-radius: 8px; }
#list a:hover { background: var(--sunk); } #list a[aria-current] { background: var(--panel); box-shadow: inset 0 0 0 1px var(--line), inset 3px 0 var(--ink); }
#list .what { display: block; color: var(--soft); white-space: nowrap; overflow: hidden; text-overflow: ellipsis; }
main { padding: 1.25rem; min-width: 0; outline: none; }
.place { display: flex; gap: .3rem .75rem; align-items: center; flex-wrap: wrap; font-size: .88rem; color: var(--soft); }
h1 { font-size: 1.65rem; line-height: 1.2; letter-spacing: -.02em; margin: .45rem 0 .3rem; text-wrap: balance; } .lead { font-size: 1.06rem; max-width: 52rem; text-wrap: pretty; }
h2 { font-size: .95rem; font-weight: 650; display: flex; gap: .3rem .6rem; align-items: baseline; flex-wrap: wrap; margin-bottom: .7rem; } h2 .grow { flex: 1; }
h3 { font-size: .86rem; margin-bottom: .3rem; } h2 small, h3 small { font-weight: 400; font-size: .86rem; }
.panel { background: var(--panel); border: 1px solid var(--line); border-radius: 12px; padding: .9rem 1rem 1rem; min-width: 0; } main > .panel, .two { margin-top: .75rem; }
.two { display: grid; grid-template-columns: minmax(0, 10fr) minmax(0, 11fr); gap: .75rem; align-items: start; } .stack { display: grid; gap: .75rem; min-width: 0; }

/* The core: a card for each answer. */
.core { margin: 1rem 0 .75rem; display: grid; grid-template-columns: repeat(auto-fit, minmax(min(13.5rem, 100%), 1fr)); gap: .75rem; }
.core .panel { border-color: var(--bad-line); border-left: 5px solid var(--bad); }
.core .conclusion { font-size: 1.12rem; margin: .3rem 0; } .core .rule { font-size: .88rem; color: var(--soft); }

/* The run: the prefix and the suffix as rows of cards, the branches as columns. */
.band { font-size: .78rem; color: var(--soft); display: flex; align-items: center; gap: .6rem; margin: .1rem 0 .45rem; }
.band::after { content: ""; flex: 1; border-top: 1px dashed var(--line); } * + .band { margin-top: .9rem; }
.flow { display: flex; flex-wrap: wrap; gap: .4rem; padding: 4px; max-height: 15rem; overflow: auto; }
.branches { display: grid; grid-template-columns: repeat(var(--count), minmax(0, 1fr)); gap: 0 clamp(.6rem, calc(4rem / var(--count)), 2rem); align-items: start; }
.branch { display: grid; gap: .55rem; padding-top: .2rem; } .branch > b { color: var(--part); font-size: .8rem; text-align: center; }
.card { border: 1.5px solid var(--line); border-radius: 9px; background: var(--panel); padding: .3rem .5rem .35rem; font-size: .9rem; min-width: 0; }
.card:hover { border-color: var(--part); } .card .id { border: 0; padding: 0; }
.card > code { display: block; max-height: 7.5em; overflow: hidden; } .card .reply { font-weight: 600; }
.card .note { display: block; font-size: .8rem; line-height: 1.35; color: var(--bad); }
.flow .card { padding: .1rem .45rem; } .flow .card > code, .flow .card .note { display: inline; margin-left: .35em; }
.card.wrong { border-color: var(--bad); background: var(--bad-panel); } .card.wrong .reply { color: var(--bad); }
.card.now { box-shadow: 0 0 0 2px var(--panel), 0 0 0 4px var(--part); }
.card.later { border-style: dashed; } .card.later, .card.later .id { color: var(--soft); } .card.later .reply { font-weight: 400; }
.card .step { float: right; min-width: 1.25rem; padding: 0 .25rem; margin-left: .4rem; border-radius: 99px; font: 700 .72rem/1.25rem var(--sans); text-align: center; color: var(--panel); background: var(--part); }
.card.stuck .step { background: var(--bad); }

/* The axis of time: a lane for each branch, a column for each tick, a bar for each call. Bars that share a tick of one lane are in two rows. */
.axis { overflow-x: auto; margin: .3rem -4px 0; padding: 4px; } .lane { display: flex; align-items: center; min-width: calc(var(--ticks) * 1.2rem + 1.4rem); margin-bottom: 3px; }
.lane > b { flex: none; width: 1.4rem; font-size: .8rem; color: var(--part); }
.bars { flex: 1; min-width: 0; min-height: 2.6rem; display: grid; grid-template-columns: repeat(var(--ticks), minmax(0, 1fr)); grid-auto-flow: row dense; gap: 3px 0; align-items: center;
  background: repeating-linear-gradient(to right, var(--line) 0 1px, transparent 1px calc(100% / var(--ticks))); border-right: 1px solid var(--line); }
.bar { min-width: 0; overflow: hidden; margin: 0 1px; padding: 0 .3rem; border: 1.5px solid var(--part); border-radius: 6px; background: var(--panel); font-size: .82rem; line-height: 1.35; }
.bar .id { display: block; border: 0; padding: 0; } .bar .reply { display: block; font-weight: 600; white-space: nowrap; overflow: hidden; text-overflow: ellipsis; }
.bar:hover { background: var(--sunk); } .bar.wrong { border-color: var(--bad); background: var(--bad-panel); } .bar.wrong .reply { color: var(--bad); }
.bar.first { border-right-width: 6px; } .bar.second { border-left-width: 6px; } .bar.now { box-shadow: 0 0 0 1px var(--panel), 0 0 0 3px var(--part); }
.bar.open { border-right: 0; border-radius: 6px 0 0 6px; margin-right: 0; mask-image: linear-gradient(to left, transparent, #000 min(2.2rem, 45%)); }
.bar.later { border-style: dashed; } .bar.later.first { border-right-style: solid; } .bar.later.second { border-left-style: solid; } .bar.later, .bar.later .id { color: var(--soft); } .bar.later .reply { font-weight: 400; }
.scale { display: flex; justify-content: space-between; min-width: calc(var(--ticks) * 1.2rem + 1.4rem); padding-left: 1.4rem; font-size: .78rem; }
.axis + p { font-size: .82rem; margin-top: .3rem; }

/* An order, step by step, with a track for each branch. */
.steps { overflow-y: auto; max-height: min(31rem, 62vh); margin: 0 -.4rem; padding: 2px .4rem; }
.row { display: grid; grid-template-columns: 1.5rem auto minmax(0, 1fr) minmax(0, .8fr); gap: 0 .6rem; align-items: center; width: 100%; min-height: 2.1rem; padding: .12rem .3rem; border-radius: 7px; font-size: .9rem; }
.row:hover, .row.now { background: var(--sunk); } .row.now { box-shadow: inset 3px 0 var(--ink); }
.row.after, .row.after .id { color: var(--soft); } .row.after .value { font-weight: 400; } .row.after mark { background: none; color: inherit; } .row.after i::after { opacity: .4; }
.row > .text { display: -webkit-box; -webkit-box-orient: vertical; -webkit-line-clamp: 4; overflow: hidden; }
.row .number { text-align: right; color: var(--soft); font-size: .8rem; } .row .number.bad { color: var(--bad); } .row .number.good { color: var(--good); }
.row.head { min-height: 0; font-size: .78rem; background: none; }
.track { display: flex; align-self: stretch; margin: -.12rem 0; } .track > * { width: 1.1rem; position: relative; text-align: center; color: var(--part); }
.track i::before { content: ""; position: absolute; left: calc(50% - 1px); top: 0; bottom: 0; border-left: 2px solid var(--line); }
.track i.on::after { content: ""; position: absolute; left: calc(50% - 6px); top: calc(50% - 6px); width: 12px; height: 12px; border-radius: 50%; background: var(--part); }
.track.all i::after { content: ""; position: absolute; left: 0; right: 0; top: calc(50% - 2px); height: 4px; background: var(--alone); }
.next { margin-top: .6rem; border-top: 1px solid var(--line); padding-top: .6rem; }
.next .row { grid-template-columns: 1.5rem minmax(0, 1fr) minmax(0, 1.1fr); } .next .row.no { background: var(--bad-panel); margin-bottom: 3px; }

/* The graph of all orders, the model, and the help. */
.graph { overflow-x: auto; } .graph svg { display: block; margin: 0 auto; max-width: 100%; height: auto; font: 12px var(--mono); }
.graph text { fill: var(--ink); text-anchor: middle; dominant-baseline: central; }
.graph .move line { stroke: var(--part); stroke-width: 1.5; opacity: .55; } .graph .move.on line { stroke-width: 4; opacity: 1; }
.graph .move text { fill: var(--part); font-weight: 700; font-size: 11px; paint-order: stroke; stroke: var(--panel); stroke-width: 5px; }
.graph .node { cursor: pointer; } .graph .node rect { fill: var(--panel); stroke: var(--soft); } .graph .node:hover rect { stroke-width: 2.5; }
.graph .dead rect { fill: var(--bad-panel); stroke: var(--bad-line); } .graph .end rect { fill: var(--good-panel); stroke: var(--good); stroke-width: 2.5; }
.graph .on rect { stroke: var(--ink); stroke-width: 2; } .graph .now rect { stroke: var(--ink); stroke-width: 3.5; }
.graph .node .refused { fill: var(--bad); font-size: 11px; font-weight: 700; }
.model dl { display: grid; grid-template-columns: auto minmax(0, 1fr); gap: .28rem .9rem; font-size: .9rem; margin-top: .6rem; } .model dt { color: var(--soft); } summary { cursor: pointer; }
.help { margin-top: 1rem; font-size: .82rem; color: var(--soft); } .help p { max-width: 46rem; margin-top: .4rem; }
kbd { font: .9em var(--mono); border: 1px solid var(--line); border-radius: 4px; padding: 0 .35em; background: var(--panel); }

@media (max-width: 860px) {
  #layout, .two { grid-template-columns: minmax(0, 1fr); } header { padding: .4rem .8rem; } main { padding: .8rem; } .panel { padding: .7rem; } h1 { font-size: 1.35rem; }
  #menu:not([hidden]) { display: inline; } nav { position: static; height: auto; padding: .8rem .8rem 0; display: none; } nav.open { display: flex; } #list { max-height: 50vh; }
}
@media (min-width: 861px) and (max-width: 1120px) {
  #layout:not(.single) { grid-template-columns: 14.5rem minmax(0, 1fr); } #layout:not(.single) .two { grid-template-columns: minmax(0, 1fr); }
}
@media print {
  :root { --page: #fff; } * { print-color-adjust: exact; } header, nav, .tool, .help, .model { display: none; } #layout, .two, .stack { display: block; } main { padding: 0; }
  .panel { break-inside: avoid; margin-bottom: .6rem; } .steps, .clip, .flow, .card > code { max-height: none; } .lane, .scale { min-width: 0; }
}
</style>
</head>
<body>
<header><b>pst</b><span id="title" class="soft"></span>
<button id="menu" class="tool" type="button" aria-expanded="false">All runs</button></header>
<div id="layout">
<nav aria-label="Runs"><input id="search" type="search" placeholder="Search calls, answers, lines" aria-label="Search">
<div class="tabs"><button id="failing" type="button"></button><button id="all" type="button"></button></div><ol id="list"></ol></nav>
<main id="main" tabindex="-1"><noscript>This page needs JavaScript. `pst explain` prints the same as text.</noscript></main>
</div>
<p id="live" class="unseen" aria-live="polite"></p>
<script type="application/json" id="data">"##;

/// The page after the JSON.
pub const AFTER_DATA: &str = r##"</script>
<script>
'use strict';
// The data is what `pst explain --format json` writes. All of it is set as text, never as markup.
const byId = id => document.getElementById(id);
const {model, items, campaign} = JSON.parse(byId('data').textContent); // `campaign` only if the items are its failures
const operations = new Map((model.ops || []).map(operation => [operation.name, operation]));
const BRANCHES = 'LRST', FAILING = new Set(['unexplained', 'fault', 'broken', 'prefalse', 'casefault']);
const LIST_STEP = 1000, MOST_NODES = 60; // how many entries the list shows at first, how many states the graph may have
let item = null; // the run or case that is shown
let nodes = [], movesFrom = new Map(); // the states of its graph, or of its one order, and the moves from each; node 0 is the first
let path = [], step = 0, isOwnPath = false; // the order that is shown, how many of its moves were made, whether the reader chose it
let filter = 'failing', listLimit = LIST_STEP;

// ---- Elements
const SVG_TAGS = new Set(['svg', 'g', 'rect', 'text', 'line', 'title']);
/** Makes an element. Children are elements, texts, or lists of them; `null`, `undefined` and `false` are left out. */
function h(tag, attributes, ...children) {
  const isSvg = SVG_TAGS.has(tag), isSet = value => value !== null && value !== undefined && value !== false;
  const element = isSvg ? document.createElementNS('http://www.w3.org/2000/svg', tag) : document.createElement(tag);
  for (const [name, value] of Object.entries(attributes || {}).filter(([, value]) => isSet(value))) {
    if (name.startsWith('on')) element.addEventListener(name.slice(2), value);
    else element.setAttribute(name, value === true ? '' : value);
  }
  element.append(...children.flat(99).filter(isSet));
  return element;
}
const button = (attributes, ...children) => h('button', {type: 'button', ...attributes}, children);
const join = (parts, separator, last = separator) =>
  parts.flatMap((part, i) => i === 0 ? [part] : [i === parts.length - 1 ? last : separator, part]);
const count = (number, noun) => number.toLocaleString('en') + ' ' + noun + (number === 1 ? '' : 's');

// ---- Spelling: what the data spells (= r (+ s 1)), the page spells answer = state + 1
/** Reads a value or an expression: a word is a string, a tree an array. Throws if the text was cut. */
function parse(text) {
  const tokens = text.match(/"(?:[^"\\]|\\.)*"|[()]|[^\s()"]+/g) || [];
  let at = 0;
  const tree = () => {
    const token = tokens[at++], parts = [];
    if (token === undefined || token === ')') throw new Error('cut');
    if (token !== '(') return /^\$\d+=$/.test(token) ? ['$=', token, tree()] : token;
    while (tokens[at] !== ')') parts.push(tree());
    at++;
    return parts;
  };
  const whole = tree();
  if (at < tokens.length) throw new Error('cut');
  return whole;
}

/** A reference `$7` names the call with that number. */
const reference = (word, {calls}) => word.replace(/^\$(\d+)/, (whole, number) => calls[number - 1] ? calls[number - 1].id : whole);
function spellTree(tree, owner) {
  if (typeof tree === 'string') return reference(tree, owner);
  const [head, ...rest] = tree, spelled = part => spellTree(part, owner);
  if (head === '$=') return reference(rest[0], owner) + spelled(rest[1]);
  const list = rest.map(part => head === 'map' ? part.map(spelled).join(': ') : spelled(part)).join(', ');
  const [open, close] = {list: ['[', ']'], tuple: ['(', ')'], map: ['{', '}']}[head] || [head + '(', ')'];
  return open + list + close;
}

const spellings = new WeakMap(); // of each item: the spellings of its values
/** Spells a value of an item. A value that was cut stays as it is. */
function spell(text, owner = item) {
  if (!spellings.has(owner)) spellings.set(owner, new Map());
  const known = spellings.get(owner);
  if (!known.has(text)) {
    try { known.set(text, spellTree(parse(text), owner)); } catch { known.set(text, text); }
  }
  return known.get(text);
}

/** Puts values in place of names, except for names that are bound within the expression. */
function fill(tree, values) {
  const without = (...names) => new Map([...values].filter(([name]) => !names.includes(name)));
  if (typeof tree === 'string') return values.has(tree) ? values.get(tree) : tree;
  const [head, a, b, c, d, e] = tree;
  if (head === 'map') return tree;
  if (head === 'let') return [head, a, fill(b, values), fill(c, without(a))];
  if (head === 'fold') return [head, a, fill(b, values), c, fill(d, values), fill(e, without(a, c))];
  if (head === 'for') {
    const bound = [], clauses = a.map(([kind, ...clause]) => {
      const filled = fill(clause[clause.length - 1], without(...bound));
      if (kind === 'in') bound.push(clause[0]);
      return kind === 'in' ? [kind, clause[0], filled] : [kind, filled];
    });
    return [head, clauses, fill(b, without(...bound))];
  }
  const kept = head === 'list' || head === 'call' ? 2 : 1; // the head, and the type of a list or the name of a function
  return tree.map((part, i) => i < kept ? part : fill(part, values));
}

// The operators between two operands: sign and strength.
const INFIX = {or: ['or', 1], and: ['and', 2], '=': ['=', 3], '<': ['<', 3], '<=': ['≤', 3], '++': ['++', 4], '+': ['+', 4],
  '-': ['−', 4], '*': ['×', 5], div: ['div', 5], rem: ['rem', 5]};

/** Spells an expression as mathematics, in brackets if it binds less than `strength`. A filled-in value is `{value}`. */
function infix(tree, strength = 0) {
  if (tree.value !== undefined) return h('b', {class: 'value'}, tree.value);
  if (typeof tree === 'string') return tree;
  const [head, ...rest] = tree, list = parts => join(parts.map(part => infix(part)), ', ');
  const bracketed = (...parts) => strength > 0 ? ['(', parts, ')'] : parts;
  const binary = (left, sign, right, own) => {
    const parts = [infix(left, own === 3 ? 4 : own), ' ' + sign + ' ', infix(right, own + 1)];
    return strength > own ? ['(', parts, ')'] : parts;
  };
  if (INFIX[head] && rest.length === 2) return binary(rest[0], INFIX[head][0], rest[1], INFIX[head][1]);
  switch (head) {
    case 'not': return rest[0][0] === '=' ? binary(rest[0][1], '≠', rest[0][2], 3) : ['not ', infix(rest[0], 9)];
    case 'has': return binary(rest[1], 'in', rest[0], 3);
    case 'if': return bracketed('if ', infix(rest[0]), ' then ', infix(rest[1]), ' else ', infix(rest[2]));
    case 'let': return bracketed('let ', rest[0], ' = ', infix(rest[1]), ' in ', infix(rest[2]));
    case 'fold': return bracketed('fold ', rest[0], ' in ', infix(rest[1]), ' from ', rest[2], ' = ', infix(rest[3]), ' by ', infix(rest[4]));
    case 'for': return ['[', infix(rest[1]), rest[0].map(([kind, ...clause]) =>
      kind === 'in' ? [' for ', clause[0], ' in ', infix(clause[1])] : [' when ', infix(clause[0])]), ']'];
    case 'list': return ['[', list(rest.slice(1)), ']'];
    case 'tuple': return ['(', list(rest), ')'];
    case 'map': return '{}';
    case 'nth': case 'get': return [infix(rest[0], 9), '[', infix(rest[1]), ']'];
    case 'at': return [infix(rest[0], 9), '.', rest[1]];
    case 'call': return [rest[0], '(', list(rest.slice(1)), ')'];
    default: return [head, '(', list(rest), ')'];
  }
}

/** An expression of the model as code, with these values in place of names. */
function expression(text, values = new Map()) {
  const filled = new Map([...values].map(([name, value]) => [name, {value}]));
  for (const [name, word] of [['r', 'answer'], ['s', 'state']]) {
    if (!filled.has(name) && !new RegExp('\\b' + word + '\\b').test(text)) filled.set(name, word);
  }
  try { return h('code', null, infix(fill(parse(text), filled))); } catch { return h('code', null, text); }
}

// ---- Parts of an item
const call = id => item.calls.find(call => call.id === id);
const callsOf = part => item.calls.filter(call => call.part === part);
const branches = () => [...BRANCHES.slice(0, Math.max(2, ...item.calls.map(call => BRANCHES.indexOf(call.part) + 1)))];
const core = () => item.core || [];
const isLeftOut = member => (item.left_out || []).includes(member);
const blamed = id => core().find(answer => answer.call === id) || (item.broken && item.broken.call === id ? item.broken : null);
const orderCount = () => item.search && item.search.orders;
const isInTime = () => item.order === 'time'; // whether only orders in time count
const command = ({op, args}, owner = item) => op + '(' + args.map(value => spell(value.text, owner)).join(', ') + ')';
const answer = (call, owner = item) => call.reply ? spell(call.reply.text, owner) : null;
const hasValue = call => call.reply && !['misfit', 'failed', 'not-run', 'unknown'].includes(call.reply.text);
const isUnknown = call => call.reply && call.reply.text === 'unknown';
const hasUnknown = () => item.calls.some(isUnknown); // whether the outcome of a call is unknown
const rule = call => item.kind === 'run' ? operations.get(call.op).post : operations.get(call.op).pre;
const chip = id => h('span', {class: 'id part-' + id[0]}, id);
const place = ({at, trial}) => at ? at.file + ':' + at.line : trial !== undefined ? 'trial ' + trial : '';
const badge = ({verdict}) => h('span', {class: 'badge ' + ({explained: 'right', valid: 'right', fault: 'doubtful', casefault: 'doubtful'}[verdict] || '')}, verdict);
const callAndAnswer = call => [h('code', null, command(call)),
  answer(call) !== null && [' ', h('span', {class: 'soft'}, '→'), ' ', h('code', {class: 'value'}, answer(call))]];

/** The answers that the model allows in place of one of the core, as far as they are known. */
function allowedAnswers({allowed}) {
  const values = allowed && allowed.values ? allowed.values.map(value => h('code', {class: 'value'}, spell(value.text))) : [];
  if (values.length === 0) return null;
  return allowed.all ? join(values, ', ', ' or ') : [join(values, ', '), ', or others'];
}

/** What the names in a call's rule stand for. Long values keep their names. */
function valuesOf(call, state, reply = hasValue(call) ? answer(call) : null) {
  const params = operations.get(call.op).params.map(([name], i) => [name, spell(call.args[i].text)]);
  const all = [...params, ['r', reply], ['s', state === null ? null : spell(state)]];
  return new Map(all.filter(([, value]) => value !== null && value.length <= 48));
}

const REASONS = {'pre is false': 'its precondition is false', 'it faults': 'the model faults here', 'next faults': 'the model faults in the next state'};
/** Why a call cannot come next. */
function reason(why, rule) {
  const part = why.part && expression(why.part);
  if (why.wants) return [why.part !== rule && [part, ' is false: '], 'the model expects ', h('code', {class: 'value'}, spell(why.wants.text))];
  if (why.compares) return [part, ' is false for ', join(why.compares.map(text => h('code', null, spell(text))), ' and ')];
  return part ? [part, ' is false'] : REASONS[why.text] || why.text;
}
const middle = (text, room) => text.length > room ? text.slice(0, room / 2) + ' … ' + text.slice(-room / 2) : text;

/** A state in which what is new is marked, cut to about `room` characters. */
function changedState(before, after, room) {
  const tokens = text => text.match(/"(?:[^"\\]|\\.)*"|[\w$=.-]+|\s+|./g) || [];
  if (before === null || before === after) return middle(after, room);
  const old = tokens(before), now = tokens(after), most = Math.min(old.length, now.length);
  let same = 0, sameEnd = 0;
  while (same < most && old[same] === now[same]) same++;
  while (sameEnd < most - same && old[old.length - 1 - sameEnd] === now[now.length - 1 - sameEnd]) sameEnd++;
  const [head, fresh, tail] = [[0, same], [same, now.length - sameEnd], [now.length - sameEnd]].map(range => now.slice(...range).join(''));
  const side = after.length <= room ? room : Math.max(12, (room - fresh.length) / 2);
  return [middle(head, side), (fresh || tail) && h('mark', {class: fresh ? null : 'gone'}, middle(fresh, room)), middle(tail, side)];
}

// ---- The verdict in words
const HEADINGS = {
  unexplained: 'No order of these calls gives these answers',
  explained: 'An order of these calls gives these answers',
  fault: 'The model itself faults on this run',
  broken: 'A call did not give a usable answer',
  valid: 'This case is valid in every order',
  prefalse: 'This case is not valid: a precondition is false in some order',
  casefault: 'This case is not valid: the model faults in some order',
};
/** The verdict as a heading. */
const heading = () => isInTime() && item.verdict === 'unexplained' ? 'No order in time gives these answers' : HEADINGS[item.verdict] || item.line;
const FAULTS = {DivZero: 'a division by zero', Overflow: 'a number beyond 64 bits', Index: 'an index outside a list', TooLong: 'a value that is too long',
  Turns: 'an evaluation that takes too many steps', Missing: 'a key that is not in the map'};
const CALLBACKS = {post: 'postcondition', pre: 'precondition', next: 'next state'};
const NO_VALUE = {failed: ' failed, and did not answer', 'not-run': ' was not called, and did not answer'};
const faultName = outcome => FAULTS[outcome] || outcome;
const CORE_LEFT_OUT = 'Which answers cannot all be right is left out: the search takes too many steps.';
function blame() {
  const ids = core().map(answer => chip(answer.call)), isPair = ids.length === 2;
  if (isLeftOut('core')) return [CORE_LEFT_OUT];
  if (ids.length === 1) return [ids, ' cannot be right, whatever the other calls answered', item.prefix ? '. The prefix alone shows it: no race is needed.' : '.'];
  return [join(ids, ', ', ' and '), isPair ? ' cannot both be right: ' : ' cannot all be right: ',
    orderCount() === 1 ? 'the model does not allow them together. '
      : (isInTime() ? 'no order in time' : 'none of the ' + (orderCount() ? count(orderCount(), 'order') : 'orders')) + ' makes ' + (isPair ? 'both' : 'all of them') + ' right. ',
    isPair ? 'Either alone can be right.' : 'Without any one of them the others can be right.'];
}

/** The order of the verdict, as chips; `null` if the prefix is all there is. */
const orderChips = () => item.walk && item.walk.word !== '-' ? join([...item.walk.word].map(letter => chip(letter === '.' ? 'X' : letter)), ' ') : null;
function faultPlace() {
  const {call: id, callback, outcome} = item.callback;
  return [id ? ['the ' + CALLBACKS[callback] + ' of ', chip(id)] : 'the initial state', ' faults with ', faultName(outcome)];
}

const LEADS = {
  unexplained: blame,
  explained: () => {
    const order = orderChips(), unmet = item.walk.steps.filter(step => step.pre).map(step => chip(step.call));
    const idle = (item.no_effect || []).map(chip);
    return ['One after another', order && [', as in ', order], ', the calls answer exactly what the model says', idle.length > 0 && ['; ', join(idle, ', ', ' and '), ' took no effect, or only after the last answer'],
      unmet.length ? ['. The precondition of ', join(unmet, ', ', ' and '), ' is not true there; a recorded run may do that.'] : '.'];
  },
  fault: () => ['No order ', isInTime() && 'in time ', 'explains the answers, and in some ', faultPlace(), '. ', isLeftOut('core') ? CORE_LEFT_OUT : core().length > 0 ? ['Besides, ', blame()] : 'No answer is to blame.'],
  broken: () => {
    const {call: id, wanted, after, needs, next} = item.broken, reply = call(id).reply.text;
    if (after) return [chip(id), ' was called after ', chip(after), ', whose outcome is unknown: the calls after it in its part are not made.'];
    if (needs) return [chip(id), ' uses the result of ', chip(needs), ', which has none: it cannot have been called.'];
    if (next) return ['The outcome of ', chip(id), ' is unknown, but the next state depends on its answer: nobody knows the state after it.'];
    return [chip(id), NO_VALUE[reply] || ' answered something other than', ' a value of type ', h('code', null, wanted), ' (', reply, ').'];
  },
  valid: () => ['In ', orderCount() > 1 ? 'each of the ' + count(orderCount(), 'order') : 'each order', ' each precondition is true, and the model has a next state.'],
  prefalse: () => ['In the order ', orderChips() || 'as written', ' the precondition of ', chip(item.callback.call), ' is false.'],
  casefault: () => ['In the order ', orderChips() || 'as written', ', ', faultPlace(), '.'],
};

// ---- The core
/** What follows for one answer of the core if the others are right. */
function conclusion(answered, values) {
  const others = core().filter(other => other !== answered).map(other => chip(other.call)), {why, allowed} = answered, blamedCall = call(answered.call);
  const premise = others.length === 0 ? 'Here ' : ['If ', join(others, ', ', ' and '), others.length > 1 ? ' are right, ' : ' is right, '];
  if (values) return [premise, 'the model ', allowed.only ? 'expects ' : 'allows ', values, '.'];
  if (!why) return [premise, 'it is wrong.'];
  if (why.wants || why.compares || why.state === undefined) return [premise, reason(why, rule(blamedCall)), '.'];
  return [premise, expression(why.part || rule(blamedCall), valuesOf(blamedCall, why.state)), why.part ? ' is false.' : ' faults.'];
}

/** What the order in time rules out. */
function orderInTime() {
  const {in_time: found} = item;
  if (isLeftOut('in_time')) return h('p', {id: 'in-time'}, 'Whether any order would explain it without its times is left out: the search takes too many steps.');
  return found && h('p', {id: 'in-time'}, 'Without the order in time ', join([...found.without].map(chip), ' '), ' would explain it. Against it: ',
    join(found.against.map(({earlier, later}) => [chip(later), ' began after ', chip(earlier), ' had been answered']), ', ', ' and '), '.');
}

function corePanels() {
  return core().length > 0 && h('section', {class: 'core', 'aria-label': 'The answers that cannot all be right'}, core().map(answered => {
    const {why, allowed} = answered, blamedCall = call(answered.call), values = allowedAnswers(answered);
    return h('div', {class: 'panel'},
      h('div', {class: 'clip'}, chip(answered.call), ' ', h('code', null, command(blamedCall)), ' answered ', h('code', {class: 'value bad'}, answer(blamedCall))),
      h('p', {class: 'conclusion clip'}, conclusion(answered, values)),
      h('p', {class: 'rule'}, 'Rule: ', expression(rule(blamedCall), valuesOf(blamedCall, null, null)), values && why && [' — ', reason(why, rule(blamedCall))],
        why && why.by && [' (as in ', why.by, ')'],
        allowed && allowed.searched === false && '. The allowed answers were not searched, because functions nest too deep.'));
  }));
}

function callbackPanel() {
  if (!item.callback) return null;
  const {call: id, callback, outcome, expr, names, part} = item.callback;
  const where = values => values.length > 0 && [h('span', {class: 'soft'}, ', where '), join(values.map(([name, value]) =>
    h('code', null, ({r: 'answer', s: 'state'}[name] || name) + ' = ', h('b', null, spell(value)))), ', ')];
  return h('section', {class: 'panel'},
    h('h2', null, outcome === 'false' ? 'The precondition that is false' : 'Where the model faults', h('small', null, id ? [chip(id), ' ' + CALLBACKS[callback]] : 'initial state')),
    h('p', {class: 'clip'}, expression(expr), where(names)),
    part && h('p', {class: 'clip'}, h('span', {class: 'bad'}, '✗ ' + faultName(outcome) + ' in ' + (part.function ? 'the function ' + part.function : 'this part') + ': '),
      expression(part.expr), where(part.names)));
}

// ---- The order that is shown, as a path through the states
const moves = node => movesFrom.get(node) || [];
const nodeAfter = steps => steps === 0 ? 0 : path[steps - 1].to;
function startItem() {
  const {walk, graph} = item;
  nodes = []; movesFrom = new Map(); isOwnPath = false;
  const addMove = move => movesFrom.set(move.from, [...moves(move.from), move]);
  if (graph) {
    nodes = graph.nodes;
    graph.edges.forEach(addMove);
  } else if (walk && walk.start !== undefined) {
    nodes = [{state: walk.start}, ...walk.steps];
    walk.steps.forEach((made, i) => addMove({from: i, call: made.call, to: i + 1, on: true}));
    (walk.next || []).forEach(next => addMove({from: walk.steps.length, ...next}));
  }
  path = verdictPath();
  step = path.length;
}

/** The order of the verdict; of a valid case any order. */
function verdictPath() {
  const found = [], choose = node => moves(node).find(move => move.on) || (!item.walk && moves(node).find(move => move.to !== undefined));
  for (let move = choose(0); move; move = choose(move.to)) found.push(move);
  return found;
}

/** Shows the order after so many calls. */
function goTo(steps) {
  if (nodes.length === 0) return;
  step = Math.max(0, Math.min(path.length, steps));
  update(true);
}
const goToCall = id => goTo(path.findIndex(move => move.call === id) + 1 || path.length);
function choosePath(chosen, isOwn = true) {
  [path, isOwnPath] = [chosen, isOwn];
  goTo(path.length);
}

/** Goes to a state: along the order that is shown, or else by the fewest calls. */
function reach(target) {
  const at = path.findIndex(move => move.to === target), ways = new Map([[0, []]]);
  if (at >= 0 || target === 0) return goTo(at + 1);
  for (const [node, way] of ways) {
    for (const move of moves(node)) if (move.to !== undefined && !ways.has(move.to)) ways.set(move.to, [...way, move]);
  }
  choosePath(ways.get(target));
}

// ---- The run, as cards
function card(call) {
  const wrong = blamed(call.id), values = wrong && allowedAnswers(wrong);
  return button({class: 'card part-' + call.part + (wrong ? ' wrong' : ''), 'data-call': call.id, onclick: () => goToCall(call.id)},
    h('span', {class: 'step', hidden: true}), h('span', {class: 'id'}, call.id), h('code', null, command(call)),
    answer(call) !== null && h('code', {class: 'reply'}, '→ ' + answer(call)),
    values && h('span', {class: 'note'}, 'the model ' + (wrong.allowed.only ? 'expects ' : 'allows '), values),
    wrong && wrong.wanted && h('span', {class: 'note'}, 'expected: ' + wrong.wanted));
}

// ---- The axis of time
const timed = () => item.calls.filter(call => call.time).sort((a, b) => a.time[0] - b.time[0]);
const against = () => item.in_time ? item.in_time.against : [];

/** What a bar says, in sentences. */
function timeText(call) {
  const [began, answered] = call.time, isBlamed = core().some(answer => answer.call === call.id);
  return [call.id + ' ' + command(call) + (hasValue(call) ? ' answered ' + middle(answer(call), 200) : isUnknown(call) ? ' has an unknown outcome' : ' gave no value') + '.',
    'It began at ' + began + (answered === null ? ', and nobody knows when it was answered.' : ' and was answered at ' + answered + '.'),
    isBlamed && 'Its answer is in the core.',
    ...against().filter(({later}) => later === call.id).map(({earlier}) => 'It began after ' + earlier + ' had been answered.'),
    ...against().filter(({earlier}) => earlier === call.id).map(({later}) => 'It had been answered before ' + later + ' began.')].filter(Boolean).join(' ');
}

/** The bar of a call, from the column of its beginning to that of its answer. An open bar goes on to the last column. */
function bar(call, columns) {
  const [began, answered] = call.time, isNamed = side => against().some(precedence => precedence[side] === call.id), text = timeText(call);
  const kinds = {wrong: blamed(call.id), open: answered === null, first: isNamed('earlier'), second: isNamed('later')};
  const element = button({class: ['bar part-' + call.part, ...Object.keys(kinds).filter(kind => kinds[kind])].join(' '), 'data-call': call.id, title: text, 'aria-label': text,
    tabindex: call.id === timed()[0].id ? 0 : -1, onclick: () => goToCall(call.id)}, h('span', {class: 'id'}, call.id), h('code', {class: 'reply'}, '→ ' + middle(answer(call), 60)));
  element.style.setProperty('grid-column', columns.get(began) + ' / ' + (answered === null ? -1 : columns.get(answered) + 1));
  return element;
}

/** Explains the marks of the axis that it has. */
function axisNotes() {
  const rulesOut = item.in_time && ['The thick edges are against ', join([...item.in_time.without].map(chip), ' '), ': a call was answered, and another began after that.'];
  return h('p', {class: 'soft'}, 'A bar goes from when its call began to when it was answered. ', timed().some(({time}) => time[1] === null) && 'An open bar has an end that nobody knows. ', rulesOut);
}

function axis() {
  const isOpen = timed().some(({time}) => time[1] === null), times = timed().flatMap(({time}) => time).filter(time => time !== null);
  const ticks = [...new Set(times)].sort((a, b) => a - b), columns = new Map(ticks.map((tick, i) => [tick, i + 1]));
  const lane = branch => h('div', {class: 'lane part-' + branch, role: 'group', 'aria-label': 'Branch ' + branch}, h('b', {'aria-hidden': 'true'}, branch),
    h('div', {class: 'bars'}, timed().filter(({part}) => part === branch).map(call => bar(call, columns))));
  const element = h('div', {class: 'axis', role: 'group', 'aria-label': 'When each call began and was answered. The up and down arrows go from bar to bar.'}, branches().map(lane),
    h('div', {class: 'scale soft', 'aria-hidden': 'true'}, h('span', null, ticks[0]), h('span', null, 'time →'), h('span', null, ticks[ticks.length - 1], isOpen && ' …')));
  element.style.setProperty('--ticks', ticks.length + (isOpen ? 1 : 0));
  return [h('p', {class: 'band'}, 'The same calls on one axis of time'), element, axisNotes()];
}

/** Moves the focus to the bar of the call that began `by` calls later. */
function moveOnAxis(by) {
  const bars = timed().map(({id}) => document.querySelector('.bar[data-call="' + id + '"]')), at = bars.indexOf(document.activeElement);
  const next = bars[Math.max(0, Math.min(bars.length - 1, at + by))];
  for (const other of bars) other.tabIndex = other === next ? 0 : -1;
  next.focus();
}

function runPanel() {
  const columns = h('div', {class: 'branches'}, branches().map(branch =>
    h('div', {class: 'branch part-' + branch}, h('b', null, 'Branch ' + branch), callsOf(branch).map(card))));
  columns.style.setProperty('--count', branches().length);
  const band = text => h('p', {class: 'band'}, text), flow = part => h('div', {class: 'flow'}, callsOf(part).map(card)), hasPrefix = callsOf('P').length > 0;
  return h('section', {class: 'panel', 'aria-label': 'The run'},
    h('h2', null, item.kind === 'run' ? ['What was called', h('small', null, 'and what it answered')] : 'What is to be called'),
    hasPrefix && [band('First, one after another'), flow('P')],
    [...BRANCHES].some(branch => callsOf(branch).length > 0) && [band(hasPrefix ? 'Then, all branches at once' : 'All branches at once'), columns],
    timed().length > 0 && axis(),
    callsOf('X').length > 0 && [band('At the end, one after another'), flow('X')]);
}

// ---- The order, step by step
const ORDERS = {explains: 'An order that explains it', furthest: 'The order that gets furthest', faults: 'An order in which the model faults', breaks: 'The order in which it fails'};
const track = part => h('span', {class: 'track' + ('PX'.includes(part) ? ' all' : '')}, branches().map(branch => h('i', {class: branch === part ? 'on' : null})));
function orderTitle() {
  if (isOwnPath) return ['An order of your own', button({class: 'tool', 'data-key': 'back', onclick: () => choosePath(verdictPath(), false)}, 'back')];
  if (isLeftOut('walk')) return 'The order that gets furthest is left out: its search takes too many steps';
  return item.walk ? (isInTime() && item.walk.kind === 'furthest' ? 'The order in time that gets furthest' : ORDERS[item.walk.kind]) : 'An order';
}

function stepRow(steps, room) {
  const state = spell(nodes[nodeAfter(steps)].state), before = steps > 0 ? spell(nodes[nodeAfter(steps - 1)].state) : null;
  const id = steps > 0 ? path[steps - 1].call : null, unmet = id && item.walk && !isOwnPath && item.walk.steps[steps - 1].pre;
  const attributes = {class: 'row part-' + (id || '-')[0] + (steps === step ? ' now' : steps > step ? ' after' : ''), 'data-key': 'step' + steps};
  return button({...attributes, 'aria-current': steps === step ? 'step' : null, onclick: () => goTo(steps)},
    h('span', {class: 'number'}, steps || ''), track(id ? id[0] : '-'),
    id ? h('span', {class: 'text'}, chip(id), ' ', callAndAnswer(call(id)), unmet && h('span', {class: 'badge doubtful'}, 'precondition ' + unmet)) : h('span', {class: 'soft'}, 'at first'),
    h('code', {class: 'text soft'}, changedState(before, state, room)));
}

function nextRow(move, room) {
  const next = call(move.call), state = nodes[nodeAfter(step)].state, what = h('span', {class: 'text'}, chip(move.call), ' ', callAndAnswer(next));
  if (move.why) {
    const here = hasValue(next) && rule(next) !== 'true' && h('div', {class: 'soft'}, expression(rule(next), valuesOf(next, state)));
    return h('div', {class: 'row no'}, h('span', {class: 'number bad'}, '✗'), what, h('div', {class: 'text'}, h('div', null, reason(move.why, rule(next))), here));
  }
  return button({class: 'row', 'data-key': 'next' + move.call, onclick: () => path[step] === move ? goTo(step + 1) : choosePath([...path.slice(0, step), move])},
    h('span', {class: 'number good'}, '✓'), what, h('code', {class: 'text soft'}, 'state ', changedState(spell(state), spell(nodes[move.to].state), room)));
}

function nextTitle(next) {
  if (next.length === 0) return h('h3', {class: 'good'}, '✓ All calls fit');
  if (!next.every(move => move.why)) return h('h3', null, 'What can come next ', next.length > 1 && item.graph && h('small', null, '(choose a call to try another order)'));
  return h('h3', {class: 'bad'}, next.length === 1 ? 'Stuck: the only next call cannot come here' : 'Stuck: none of the next calls can come here');
}

function showSteps() {
  const box = byId('steps'), focused = document.activeElement && document.activeElement.dataset.key, room = innerWidth < 500 ? 18 : 30;
  if (!box) return;
  const head = h('div', {class: 'row head soft', 'aria-hidden': 'true'}, h('span'), h('span', {class: 'track'}, branches().map(branch => h('b', {class: 'part-' + branch}, branch))),
    h('span', null, 'call → answer'), h('span', null, 'state after'));
  const list = h('div', {class: 'steps', tabindex: -1}, head, [null, ...path].map((_, steps) => stepRow(steps, room))), next = moves(nodeAfter(step));
  box.replaceChildren(
    h('h2', null, orderTitle(), h('span', {class: 'grow'}),
      button({class: 'tool', 'data-key': 'previous', 'aria-label': 'Step back', disabled: step === 0, onclick: () => goTo(step - 1)}, '←'),
      path.length > 0 && h('small', null, step + ' of ' + path.length),
      button({class: 'tool', 'data-key': 'following', 'aria-label': 'Step on', disabled: step === path.length, onclick: () => goTo(step + 1)}, '→')),
    list, h('div', {class: 'next'}, nextTitle(next), next.map(move => nextRow(move, room))));
  const now = list.querySelector('.now'), again = focused && (box.querySelector('[data-key="' + focused + '"]:not(:disabled)') || now);
  list.scrollTop = now.offsetTop - list.offsetTop - list.clientHeight / 2;
  if (again) again.focus({preventScroll: true});
}

// ---- The graph of all orders: time goes down, and each branch has its own direction
const sum = numbers => numbers.reduce((total, number) => total + number, 0);
/** Where the states of the graph are drawn, without a long prefix; `null` if there are too many or too few. */
function layOut() {
  const prefixLength = callsOf('P').length, level = i => sum(nodes[i].at) - (prefixLength > 2 ? prefixLength : 0), lanes = branches();
  const drawn = [...nodes.keys()].filter(i => level(i) >= 0), rows = [], x = [];
  if (drawn.length < 2 || drawn.length > MOST_NODES) return null;
  for (const i of drawn) (rows[level(i)] ||= []).push(i);
  const label = nodes.map(node => middle(spell(node.state), 16)), refused = nodes.map((_, i) => moves(i).filter(move => move.why).map(move => '✗' + move.call).join(' '));
  const width = Math.max(34, ...drawn.map(i => Math.max(label[i].length * 7.3, refused[i].length * 6.8) + 16)), gap = width + 22;
  const aim = i => sum(lanes.map((_, k) => nodes[i].at[k + 1] * (k - (lanes.length - 1) / 2))) * gap;
  for (const row of rows) {
    row.sort((a, b) => aim(a) - aim(b));
    row.forEach((i, k) => { x[i] = k === 0 ? aim(i) : Math.max(aim(i), x[row[k - 1]] + gap); });
    const shift = lanes.length > 2 ? (x[row[0]] + x[row[row.length - 1]]) / 2 : sum(row.map(i => x[i] - aim(i))) / row.length;
    for (const i of row) x[i] -= shift;
  }
  const left = Math.min(...drawn.map(i => x[i])) - gap / 2 - 4, right = Math.max(...drawn.map(i => x[i])) + gap / 2 + 4;
  const top = i => level(i) * 86 + 7, bottom = i => top(i) + (refused[i] ? 44 : 26);
  return {drawn, label, refused, width, x: i => x[i] - left, top, bottom, size: [Math.round(right - left), Math.max(...drawn.map(bottom)) + 8]};
}

function graphNode(i, {label, refused, width, x, top, bottom}) {
  const isEnd = hasUnknown() ? moves(i).length === 0 : sum(nodes[i].at) === item.calls.length;
  const kind = isEnd ? ' end' : refused[i] && moves(i).every(move => move.why) ? ' dead' : '';
  const reasons = moves(i).filter(move => move.why).map(move => '\n' + move.call + ' cannot come next: ' + move.why.text).join('');
  return h('g', {class: 'node' + kind, 'data-node': i, onclick: () => reach(i)}, h('title', null, 'state ' + spell(nodes[i].state) + reasons),
    h('rect', {x: x(i) - width / 2, y: top(i), width, height: bottom(i) - top(i), rx: 7}), h('text', {x: x(i), y: top(i) + 13}, label[i]),
    refused[i] && h('text', {class: 'refused', x: x(i), y: top(i) + 30}, refused[i]));
}

function graphMove(move, index, {x, top, bottom}) {
  const [x1, y1, x2, y2] = [x(move.from), bottom(move.from), x(move.to), top(move.to)];
  return h('g', {class: 'move part-' + move.call[0], 'data-move': index}, h('line', {x1, y1, x2, y2}), h('text', {x: x1 * .4 + x2 * .6, y: y1 * .4 + y2 * .6}, move.call));
}

function graphPanel() {
  const places = item.graph && layOut();
  if (!places) return null;
  const [width, height] = places.size, edges = [...item.graph.edges.entries()].filter(([, move]) => move.to !== undefined && places.drawn.includes(move.from));
  const svg = h('svg', {viewBox: '0 0 ' + width + ' ' + height, width, height, role: 'img', 'aria-label': 'The states that the orders pass through'},
    edges.map(([index, move]) => graphMove(move, index, places)), places.drawn.map(i => graphNode(i, places)));
  svg.style.setProperty('min-width', Math.min(width, Math.max(width * .72, 300)) + 'px');
  return h('section', {class: 'panel', 'data-wide': width > 500, 'aria-label': 'All orders'},
    h('h2', null, 'All orders at a glance', h('small', null, isInTime() ? 'These are the orders in time, through ' : orderCount() ? count(orderCount(), 'order') + ' through ' : '', count(nodes.length, 'position') + '. Each box is a state, each line a call. ',
      places.refused.some(Boolean) && [h('b', {class: 'bad'}, '✗'), ' marks a call that cannot come next.'], item.verdict === 'unexplained' ? ' No way leads to the end.' : '')),
    h('div', {class: 'graph'}, svg));
}

// ---- The page
const HELP = ['A run is a record: which calls were made, and what each answered. The branches ran at the same time, so any order between them can be the right one; within a branch, calls came from top to bottom.',
  'The model says what each call answers when calls come one after another. A run is explained if some order of its calls (an interleaving) gives exactly the recorded answers. The state is what the model holds between two calls.',
  'If no order does, the red calls are a core: their answers cannot all be right, but without any one of them the others can. Any of them may be the wrong one. The page then shows the order that gets furthest before no call fits.'];
const TIMED_HELP = ['A run is a record: which calls were made, what each answered, and when. A call that was answered before another began comes before it in the order in time. Calls whose bars overlap can come in either order.',
  'A run with times needs an order in time, that is one in which no call comes before a call that was answered before it began. Orders that go against it count only if times are left out.'];
function modelPanel() {
  const line = (name, text) => [h('dt', null, name), h('dd', null, expression(text))];
  const title = (kind, {name, params, result}) => [h('dt', null, kind), h('dd', null, h('code', null, name + '(' + params.map(param => param.join(': ')).join(', ') + '): ' + result))];
  return operations.size > 0 && h('details', {class: 'panel model'}, h('summary', null, 'The model ' + model.name), h('dl', null, line('initial state', model.init)),
    model.ops.map(operation => h('dl', null, title('call', operation), operation.pre !== 'true' && line('allowed if', operation.pre), line('rule', operation.post), line('next state', operation.next))),
    (model.funs || []).map(definition => h('dl', null, title('function', definition), line('is', definition.body))));
}

/** Shows the current step: on the cards, in the graph and in the list of steps. `isSpoken` also tells it to screen readers. */
function update(isSpoken) {
  const next = moves(nodeAfter(step)), made = path.slice(0, step), seen = new Set([0, ...made.map(move => move.to)]), last = made[step - 1];
  for (const element of document.querySelectorAll('.card, .bar')) {
    const id = element.dataset.call, at = made.findIndex(move => move.call === id), isStuck = next.some(move => move.call === id && move.why), number = element.querySelector('.step');
    element.classList.toggle('now', at >= 0 && at === step - 1);
    element.classList.toggle('later', nodes.length > 0 && at < 0 && !isStuck && !blamed(id));
    element.classList.toggle('stuck', isStuck);
    if (!number) continue;
    number.textContent = isStuck ? '✗' : at >= 0 && BRANCHES.includes(id[0]) ? at + 1 : '';
    number.hidden = number.textContent === '';
  }
  for (const element of document.querySelectorAll('.graph .move')) element.classList.toggle('on', made.includes(item.graph.edges[element.dataset.move]));
  for (const element of document.querySelectorAll('.graph .node')) {
    element.classList.toggle('on', seen.has(+element.dataset.node));
    element.classList.toggle('now', +element.dataset.node === nodeAfter(step));
  }
  showSteps();
  if (isSpoken) byId('live').textContent = (last ? 'Step ' + step + ' of ' + path.length + ': ' + last.call + ' ' + command(call(last.call)) : 'At first') + ', state ' + spell(nodes[nodeAfter(step)].state);
}

function render() {
  const run = runPanel(), steps = nodes.length > 0 && h('section', {class: 'panel', id: 'steps', 'aria-label': 'An order, step by step'}), graph = graphPanel();
  const isWide = branches().length > 2, isWideGraph = graph && (isWide || graph.dataset.wide !== undefined), stack = (...panels) => h('div', {class: 'stack'}, panels);
  const columns = isWide ? [] : [stack(run), stack(steps, callbackPanel())];
  const keys = (names, what) => [join(names.map(name => h('kbd', null, name)), ' '), ' ' + what + '  '];
  document.title = item.item + ' ' + item.line + ' – ' + model.name;
  byId('main').replaceChildren(...[
    h('div', {class: 'place'}, badge(item), h('span', null, (item.kind === 'run' ? 'Run ' : 'Case ') + item.item + (items.length > 1 ? ' of ' + items.length : '')), h('span', {class: 'mono'}, place(item))),
    h('h1', null, heading()), LEADS[item.verdict] && h('p', {class: 'lead'}, LEADS[item.verdict]()), corePanels(), orderInTime(),
    ...(isWide ? [run, steps, callbackPanel()] : [h('div', {class: 'two'}, columns)]), isWideGraph && graph, modelPanel(),
    h('details', {class: 'help'}, h('summary', null, 'How to read this page'), (isInTime() ? [...TIMED_HELP, ...HELP.slice(1)] : HELP).map(text => h('p', null, text))),
    h('p', {class: 'help'}, keys(['←', '→'], 'step'), timed().length > 0 && keys(['↑', '↓'], 'from bar to bar'), items.length > 1 && [keys(['j', 'k'], 'next and previous run'), keys(['/'], 'search')])].filter(Boolean));
  update();
  if (graph && !isWideGraph) columns[innerWidth > 860 && columns[0].offsetHeight < columns[1].offsetHeight ? 0 : 1].append(graph), update();
}

function show(number) {
  item = items.find(other => other.item === number) || listed()[0] || items[0];
  if (!item) return byId('main').replaceChildren(h('p', null, campaign ? 'No trial failed.' : 'There are no runs.'));
  startItem();
  render();
  scrollTo(0, 0);
  try { history.replaceState(null, '', '#' + item.item); } catch { /* a page without an address of its own */ }
  for (const entry of document.querySelectorAll('#list a')) entry.ariaCurrent = entry.hash === '#' + item.item ? 'true' : null;
  const current = document.querySelector('#list [aria-current]');
  if (current) current.scrollIntoView({block: 'nearest'});
}

// ---- The list, and the keys
const searched = new Map(); // the text in which each item is found
function textOf(other) {
  const written = call => '(' + [call.op, ...call.args.map(value => value.text)].join(' ') + ') -> ' + (call.reply ? call.reply.text : '');
  const words = () => [other.item, other.line, place(other), ...other.calls.flatMap(call => [call.id + ' ' + command(call, other), written(call)])];
  if (!searched.has(other)) searched.set(other, words().join('\n').toLowerCase());
  return searched.get(other);
}

/** The items of the list: failing first, and those alone if only they are asked for. */
function listed() {
  const query = byId('search').value.trim().toLowerCase(), failing = items.filter(other => FAILING.has(other.verdict));
  const all = filter === 'failing' && failing.length > 0 ? failing : [...failing, ...items.filter(other => !FAILING.has(other.verdict))];
  return query ? all.filter(other => textOf(other).includes(query)) : all;
}

function entry(other) {
  const open = event => { event.preventDefault(); show(other.item); toggleList(false); };
  const blamedCalls = (other.core || []).map(({call: id}) => other.calls.find(call => call.id === id));
  const what = blamedCalls.map(call => call.id + ' ' + command(call, other) + ' → ' + answer(call, other)).join(', ');
  return h('li', null, h('a', {href: '#' + other.item, 'aria-current': other === item ? 'true' : null, onclick: open}, other.item + ' ', badge(other),
    h('span', {class: 'what mono'}, middle(what || other.line, 200))));
}

function showList() {
  const found = listed(), showAll = () => { listLimit = Infinity; showList(); };
  byId('list').replaceChildren(...found.slice(0, listLimit).map(entry), ...[found.length === 0 && h('li', {class: 'soft'}, 'No run matches.'),
    found.length > listLimit && h('li', null, button({class: 'tool', onclick: showAll}, 'show all ' + found.length))].filter(Boolean));
  for (const name of ['failing', 'all']) byId(name).setAttribute('aria-pressed', filter === name);
}

function toggleList(isOpen) {
  document.querySelector('nav').classList.toggle('open', isOpen);
  byId('menu').setAttribute('aria-expanded', isOpen);
}

/** Shows the item that is `by` entries further down the list. */
function move(by) {
  const found = listed(), next = found[Math.max(0, Math.min(found.length - 1, found.indexOf(item) + by))];
  if (next) show(next.item);
}

function pressed(event) {
  const isTyping = event.target.tagName === 'INPUT', inList = event.target.closest('#list'), inAxis = event.target.closest('.axis');
  if (isTyping && event.key === 'Escape') event.target.blur();
  if (isTyping || event.ctrlKey || event.metaKey || event.altKey) return;
  const moveInList = by => inList && (() => { move(by); document.querySelector('#list [aria-current]').focus(); });
  const moveInAxis = by => inAxis && (() => moveOnAxis(by));
  const act = {ArrowRight: () => goTo(step + 1), ArrowLeft: () => goTo(step - 1), Home: () => goTo(0), End: () => goTo(path.length), j: () => move(1), k: () => move(-1),
    '/': () => byId('search').focus(), ArrowDown: moveInList(1) || moveInAxis(1), ArrowUp: moveInList(-1) || moveInAxis(-1)}[event.key];
  if (act && item) event.preventDefault(), act();
}

const failingCount = items.filter(other => FAILING.has(other.verdict)).length;
if (failingCount === 0) filter = 'all';
byId('title').textContent = model.name + ' · ' + (campaign ? campaign.failed + ' of ' + count(campaign.trials, 'trial') + ' failed, seed ' + campaign.seed
  : count(items.length, 'run') + (failingCount > 0 ? ', ' + failingCount + ' failing' : ', none failing'));
[byId('failing').textContent, byId('all').textContent] = ['Failing ' + failingCount, 'All ' + items.length];
byId('layout').classList.toggle('single', byId('menu').hidden = items.length < 2);
byId('menu').addEventListener('click', () => toggleList(byId('menu').getAttribute('aria-expanded') !== 'true'));
byId('search').addEventListener('input', showList);
for (const name of ['failing', 'all']) byId(name).addEventListener('click', () => { filter = name; showList(); });
addEventListener('hashchange', () => { if (item && +location.hash.slice(1) !== item.item) show(+location.hash.slice(1)); });
addEventListener('keydown', pressed);
showList();
show(+location.hash.slice(1));
</script>
</body>
</html>
"##;
