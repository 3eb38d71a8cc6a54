//! Written by ../make from ../page_text/data/page.html. Change that file, and not this one.
ghost use Rattle.std.specs.Prelude.{◌≡◌};

/// The page for a browser.
pub const PAGE: &str = r####"<!doctype html>
<html lang="en">
<head>
<meta charset="utf-8">
<meta name="viewport" content="width=device-width">
<meta http-equiv="Content-Security-Policy" content="default-src 'none'; style-src 'sha256-XoLlu6tr+T23eBlreb/qMQUcjrU61+PTbjPLsaaRh9w='; script-src 'sha256-+v1FZV6YE3nvFiXUpmRHrjr2fTmj7pf3hCBPkl+47vU='; connect-src 'self' ws://127.0.0.1:* ws://localhost:*; img-src data:; base-uri 'none'; form-action 'none'">
<title>Oberon notebooks</title>
<link rel="icon" href="data:image/svg+xml,%3Csvg xmlns='http://www.w3.org/2000/svg' viewBox='0 0 16 16'%3E%3Crect width='16' height='16' rx='4' fill='%232f6f5e'/%3E%3C/svg%3E">
<style>
/* 1. Colours, and what all parts share */
:root {
  color-scheme: light dark;
  --ground: #f5f5f2; --card: #ffffff; --ink: #1d2125; --soft: #646b73; --line: #dcdcd6; --accent: #2f6f5e; --on-accent: #ffffff;
  --code: #fafaf8; --word: #7a3e9d; --known: #1f5fa8; --string: #9a4a12; --note: #5f7a5f; --number: #1f6f6a;
  --bad: #b3261e; --bad-ground: #fdf0ee; --ask: #8a5a00; --ask-ground: #fff7e3; --good: #2f7d4f;
  --mono: ui-monospace, Menlo, Consolas, "DejaVu Sans Mono", monospace;
}
@media (prefers-color-scheme: dark) {
  :root {
    --ground: #15171a; --card: #1d2024; --ink: #e6e7e8; --soft: #9aa2ab; --line: #33383e; --accent: #6fc0a8; --on-accent: #10211c;
    --code: #181b1f; --word: #d0a3ec; --known: #8fbdf2; --string: #e5ab7c; --note: #8fae8f; --number: #7fd0c8;
    --bad: #ff9d94; --bad-ground: #33201f; --ask: #f0c56a; --ask-ground: #2f2816; --good: #7ccb98;
  }
}
* { box-sizing: border-box; }
[hidden] { display: none !important; }
.unseen { position: absolute; width: 1px; height: 1px; margin: -1px; overflow: hidden; clip-path: inset(50%); white-space: nowrap; }
body { margin: 0; background: var(--ground); color: var(--ink); font: 16px/1.5 system-ui, sans-serif; }
a { color: var(--accent); }
button, input, textarea { font: inherit; color: inherit; }
button { background: var(--card); border: 1px solid var(--line); border-radius: 7px; padding: .25rem .7rem; cursor: pointer; white-space: nowrap; }
button:hover:not(:disabled) { border-color: var(--accent); }
button:disabled { opacity: .45; cursor: default; }
button svg { width: 1rem; height: 1rem; fill: currentColor; vertical-align: -.15em; }
button.main { background: var(--accent); border-color: var(--accent); color: var(--on-accent); }
button.quiet { background: none; border-color: transparent; color: var(--soft); padding: .15rem .45rem; } button.quiet:hover { color: var(--ink); }
:focus-visible { outline: 2px solid var(--accent); outline-offset: 1px; }

/* 2. The bar at the top */
header { position: sticky; top: 0; z-index: 2; background: var(--ground); border-bottom: 1px solid var(--line); }
.bar { max-width: 62rem; margin: 0 auto; padding: .45rem 1rem; display: flex; flex-wrap: wrap; gap: .4rem; align-items: center; } .bar .space { flex: 1 1 0; }
.bar h1 { font-size: 1.05rem; margin: 0; }
.title { border: 1px solid transparent; background: none; font-weight: 600; font-size: 1.05rem; padding: .1rem .3rem; border-radius: 6px; min-width: 6rem; width: 16rem; max-width: 60vw; }
.title:hover, .title:focus { border-color: var(--line); background: var(--card); }
.saved { color: var(--soft); font-size: .85rem; } .saved.bad { color: var(--bad); font-weight: 600; }
.menu { position: relative; } .menu summary { list-style: none; border: 1px solid var(--line); border-radius: 7px; padding: .25rem .7rem; background: var(--card); cursor: pointer; }
.menu div { position: absolute; right: 0; top: 2.4rem; display: flex; flex-direction: column; background: var(--card); border: 1px solid var(--line); border-radius: 9px; padding: .3rem; box-shadow: 0 4px 16px rgb(0 0 0 / .2); }
.menu div button { border-color: transparent; text-align: left; }
.state { display: inline-flex; align-items: center; gap: .4rem; font-size: .85rem; color: var(--soft); }
.state::before { content: ""; width: .7rem; height: .7rem; border-radius: 50%; border: 2px solid var(--soft); }
.state.ready::before { border-color: var(--good); background: var(--good); }
.state.busy::before { border-color: var(--accent); border-right-color: transparent; animation: turn 1s linear infinite; }
.state.ask { color: var(--ask); } .state.ask::before { border-color: var(--ask); background: var(--ask); } .state.lost { color: var(--bad); } .state.lost::before { border-color: var(--bad); }
@keyframes turn { to { transform: rotate(1turn); } }
@media (prefers-reduced-motion: reduce) { .state.busy::before { animation: none; background: var(--accent); } }

/* 3. Notices, folders */
main { max-width: 62rem; margin: 0 auto; padding: 1rem 1rem 8rem; }
.notice { border: 1px solid var(--line); border-left: 4px solid var(--bad); background: var(--bad-ground); border-radius: 7px; padding: .5rem .8rem; margin: 0 0 1rem; display: flex; gap: .6rem; align-items: baseline; justify-content: space-between; }
.notice span { flex: 1; } .notice.mild { border-left-color: var(--accent); background: var(--card); }

.list { list-style: none; margin: 0; padding: 0; background: var(--card); border: 1px solid var(--line); border-radius: 10px; overflow: hidden; }
.list li { display: flex; flex-wrap: wrap; align-items: center; gap: .5rem; padding: .5rem .8rem; border-top: 1px solid var(--line); } .list li:first-child { border-top: 0; }
.list .name { flex: 1 1 12rem; overflow-wrap: anywhere; } .list .kind { width: 1.6rem; text-align: center; color: var(--soft); font-family: var(--mono); }
.badge { font-size: .8rem; color: var(--good); border: 1px solid currentColor; border-radius: 99px; padding: 0 .5rem; }
.empty { padding: 2rem 1rem; text-align: center; color: var(--soft); } .empty button { margin: .2rem; }
.crumbs { margin: 0 0 .8rem; color: var(--soft); }

/* 4. Cells: gutter, editor, outputs, texts */
.cell { display: grid; grid-template-columns: 3.6rem minmax(0, 1fr); position: relative; margin: 0 0 1.1rem; border-radius: 10px; border: 1px solid var(--line); background: var(--card); outline: none; }
.cell::before { content: ""; position: absolute; inset: -1px auto -1px -1px; width: 4px; border-radius: 10px 0 0 10px; background: transparent; }
.cell.chosen { border-color: var(--accent); } .cell.chosen::before { background: var(--accent); }
.gutter { display: flex; flex-direction: column; align-items: center; gap: .1rem; padding: .55rem 0; color: var(--soft); }
.gutter .run { width: 2.2rem; height: 2.2rem; border-radius: 50%; padding: 0; color: var(--accent); background: none; border-color: transparent; line-height: 1; }
.gutter .run:hover { border-color: var(--accent); }
.count { font: .8rem var(--mono); }
.cell.running .count, .cell.waiting .count { color: var(--accent); font-weight: 700; }
.tools { position: absolute; right: .6rem; top: -1rem; z-index: 1; display: flex; background: var(--card); border: 1px solid var(--line); border-radius: 7px; font-size: .85rem; opacity: 0; }
.cell:hover .tools, .cell:focus-within .tools, .cell.chosen .tools { opacity: 1; }
.edit { display: grid; margin: .5rem .5rem .5rem 0; border-radius: 7px; background: var(--code); border: 1px solid transparent; }
.edit:focus-within { border-color: var(--line); }
.edit > * { grid-area: 1 / 1; margin: 0; padding: .5rem .6rem; border: 0; font: .92rem/1.5 var(--mono); tab-size: 2; white-space: pre-wrap; overflow-wrap: anywhere; word-break: normal; letter-spacing: 0; }
.edit pre { pointer-events: none; min-height: 2.4rem; }
.edit textarea { resize: none; overflow: hidden; width: 100%; height: 100%; background: none; color: transparent; caret-color: var(--ink); outline: none; }
.edit textarea::placeholder { color: var(--soft); opacity: .7; } .edit textarea::selection { background: color-mix(in srgb, var(--accent) 30%, transparent); }
.w { color: var(--word); font-weight: 600; }
.k { color: var(--known); }
.s { color: var(--string); }
.c { color: var(--note); font-style: italic; }
.n { color: var(--number); }
.wrong { text-decoration: underline wavy var(--bad); text-underline-offset: .25em; background: var(--bad-ground); border-radius: 3px; }
.outputs { padding: 0 .6rem .1rem 0; }
.outputs > * { margin: 0 0 .5rem; padding: .1rem .6rem; }
.outputs pre { font: .92rem/1.45 var(--mono); white-space: pre-wrap; overflow-wrap: anywhere; max-height: 32rem; overflow-y: auto; margin-top: 0; } .outputs .typed { color: var(--ask); }
.error { border-left: 3px solid var(--bad); background: var(--bad-ground); border-radius: 0 7px 7px 0; padding: .4rem .7rem !important; } .error b { color: var(--bad); }
.error button { padding: 0 .3rem; border: 0; background: none; color: var(--accent); text-decoration: underline; }
.more, .skipped { color: var(--soft); font-style: italic; }
.asking { display: flex; gap: .5rem; align-items: center; background: var(--ask-ground); border-left: 3px solid var(--ask); border-radius: 0 7px 7px 0; padding: .4rem .7rem !important; }
.asking input { flex: 1; min-width: 0; font: .92rem var(--mono); border: 1px solid var(--ask); border-radius: 6px; padding: .2rem .5rem; background: var(--card); }
.text .body { padding: .4rem .8rem .4rem 0; } .text .shown { cursor: text; min-height: 2rem; overflow-wrap: anywhere; }
.shown > :first-child { margin-top: .2rem; } .shown > :last-child { margin-bottom: .2rem; }
.shown code { font: .92em var(--mono); background: var(--code); border-radius: 4px; padding: 0 .25em; }
.shown pre { background: var(--code); border-radius: 7px; padding: .5rem .7rem; overflow-x: auto; }
.shown h1 { font-size: 1.6rem; line-height: 1.2; } .shown h2 { font-size: 1.3rem; } .shown h3 { font-size: 1.1rem; }
.add { display: flex; gap: .5rem; justify-content: center; padding: .3rem; }
/* 5. Help */
dialog { border: 1px solid var(--line); border-radius: 12px; background: var(--card); color: var(--ink); max-width: min(76rem, 98vw); max-height: 98vh; padding: .6rem 1.2rem .8rem; font-size: .88rem; }
dialog::backdrop { background: rgb(0 0 0 / .45); }
dialog table { border-collapse: collapse; width: 100%; } dialog td { padding: .05rem .6rem .05rem 0; vertical-align: top; border-top: 1px solid var(--line); }
dialog > button { float: right; } dialog h2 { margin: 0 0 .2rem; font-size: 1.15rem; } dialog h3 { margin: .5rem 0 .1rem; font-size: 1rem; } dialog p, dialog ul { margin: .2rem 0; } dialog ul { padding-left: 1.2rem; }
.two { display: grid; grid-template-columns: minmax(0, 5fr) minmax(0, 3fr); gap: 0 1.4rem; } .two pre { margin: 0; padding: .3rem .6rem; border-radius: 7px; background: var(--code); font: .74rem/1.32 var(--mono); white-space: pre-wrap; }
kbd { font: .85em var(--mono); border: 1px solid var(--line); border-bottom-width: 2px; border-radius: 5px; padding: 0 .35em; background: var(--code); }
/* 6. Phones, forced colours, paper */
@media (max-width: 40rem) {
  .two { display: block; }
  main { padding: .6rem .5rem 6rem; } .bar { padding: .35rem .5rem; gap: .3rem; } button { padding: .3rem .55rem; }
  .cell { grid-template-columns: 2.6rem minmax(0, 1fr); } .edit textarea, .edit pre { font-size: 16px; line-height: 1.5; } .title { flex: 1 1 9rem; }
  .tools { position: static; grid-column: 1 / -1; justify-content: flex-end; order: 3; opacity: 1; border: 0; } .cell:not(.chosen) .tools { display: none; }
  .outputs, .edit { margin-right: .4rem; padding-right: 0; }
}
@media (forced-colors: active) { .edit pre { visibility: hidden; } }
@media print { header, .tools, .add, .run { display: none !important; } .cell { break-inside: avoid; } }
</style>
</head>
<body>
<header><div class="bar" id="bar"></div></header>
<main id="main"></main>
<p id="said" class="unseen" role="status"></p>
<dialog id="help" aria-labelledby="help-title"></dialog>
<script>
"use strict";

// ---- 1. What the language is called: words to colour, and what its errors mean

const WORDS = new Set("ARRAY BEGIN BY CASE CONST DIV DO ELSE ELSIF END FALSE FOR IF IMPORT IN IS MOD MODULE NIL OF OR POINTER PROCEDURE RECORD REPEAT RETURN THEN TO TRUE TYPE UNTIL VAR WHILE".split(" "));
const KNOWN = new Set("INTEGER BOOLEAN CHAR BYTE ABS ODD LSL ASR ROR LEN ORD CHR ASSERT INC DEC In Out".split(" "));
const MEANS = {
  compile: {
    1: "The language doesn't have this character.", 2: "This comment is still open at the end: close it by *).", 3: "This string isn't closed in its line.",
    4: "This is no number of the language, or a name of more than 64 characters.", 5: "This can't stand here. Look before it: often a word or a semicolon is missing.",
    6: "More than 200 constructs stand in one another.", 7: "The name after END is another than that at the beginning.", 10: "Nothing declares this name here.",
    11: "This name is declared twice, or is taken.", 12: "The types don't fit.", 13: "This can't be written to.", 14: "Parameters or result don't fit the heading.",
    15: "This has to be a constant.", 16: "This module isn't loaded: run its cell first.", 17: "The module imports itself.", 18: "The module (or record) shows no such name. Is a * missing there?",
    19: "This label stands twice, or the range is empty.", 20: "This is too large.", 21: "This part of Oberon-07 is left out here.",
  },
  ends: { Interrupted: "What was loaded stays, with its values.", Restarted: "The kernel was restarted while this ran.", Memory: "There was no memory for this." },
  link: { 30: "This module isn't loaded: run its cell first.", 31: "The module has no such command: a procedure with * and without parameters.", 32: "This module has changed: run its client's cell again." },
  trap: {
    1: "The index is outside its array.", 2: "The divisor is 0 or less.", 3: "No case has this value.", 4: "An ASSERT doesn't hold.", 5: "No character has this number.",
    6: "The shift is less than 0 or more than 31.", 7: "The string is too long for its array.", 8: "More than 1,000 calls are open: does the recursion end?", 9: "The value doesn't fit a BYTE.", 10: "The record is of another type: ask by IS before.",
  },
};

// ---- 2. Small helpers

const $ = id => document.getElementById(id);
const TAB = Math.random().toString(36).slice(2, 10);
const wait = ms => new Promise(done => setTimeout(done, ms));
const joined = text => Array.isArray(text) ? text.join("") : (text || "");
const urlPath = path => path.split("/").map(encodeURIComponent).join("/");
const nameOf = path => path.split("/").pop();
const bareName = path => nameOf(path).replace(/\.ipynb$/, "");
const folderOf = path => path.split("/").slice(0, -1).join("/");

// An element with attributes (on..: listeners) and children.
function el(tag, attributes = {}, ...children) {
  const made = document.createElement(tag);
  for (const [name, value] of Object.entries(attributes)) {
    if (name.startsWith("on")) made.addEventListener(name.slice(2), value);
    else if (value === true) made.setAttribute(name, "");
    else if (value !== false && value !== null && value !== undefined) made.setAttribute(name, value);
  }
  made.append(...children.filter(child => child !== null && child !== undefined));
  return made;
}
const button = (text, title, onclick, kind = "") => el("button", { type: "button", class: kind, title, onclick }, text);
function icon(path, title, onclick, kind = "quiet") {
  const made = el("button", { type: "button", class: kind, title, "aria-label": title, onclick });
  const svg = document.createElementNS("http://www.w3.org/2000/svg", "svg"), shape = document.createElementNS("http://www.w3.org/2000/svg", "path");
  svg.setAttribute("viewBox", "0 0 16 16"); svg.setAttribute("aria-hidden", "true"); shape.setAttribute("d", path);
  svg.append(shape); made.append(svg);
  return made;
}
function newId() {
  const bytes = crypto.getRandomValues(new Uint8Array(6));
  return Array.from(bytes, byte => byte.toString(16).padStart(2, "0")).join("");
}

// A notice above the page's content, gone by a click or when another of its kind comes.
function notice(kind, text, action) {
  document.querySelectorAll(`.notice[data-kind="${kind}"]`).forEach(old => old.remove());
  if (!text) return;
  const made = el("div", { class: kind === "mild" ? "notice mild" : "notice", "data-kind": kind }, el("span", {}, text));
  if (action) made.append(button(action.name, "", () => { made.remove(); action.run(); }));
  made.append(icon("M3 4l1-1 4 4 4-4 1 1-4 4 4 4-1 1-4-4-4 4-1-1 4-4z", "Close", () => made.remove()));
  $("main").prepend(made);
  say(text);
}
// Tells those who hear the page and don't see it.
function say(text) {
  $("said").textContent = "";
  setTimeout(() => { $("said").textContent = text; }, 50);
}

// ---- 3. The server's REST routes

class Refused extends Error {
  constructor(status, text) { super(text); this.status = status; }
}
async function api(method, route, body, keepalive = false) {
  let answer;
  try {
    answer = await fetch(route, { method, keepalive, cache: "no-store", body: body === undefined ? undefined : JSON.stringify(body) });
  } catch (fault) {
    throw new Refused(0, "the server does not answer");
  }
  const text = await answer.text();
  if (!answer.ok) {
    let message = answer.statusText;
    try { message = JSON.parse(text).message; } catch (fault) { /* the phrase stays */ }
    throw new Refused(answer.status, message);
  }
  return text ? JSON.parse(text) : null;
}
const contents = path => "/api/contents" + (path ? "/" + urlPath(path) : "");

// ---- 4. Colours of the editor

// The parts of a text as [class, text, start].
function parts(text) {
  const found = [], sign = /\(\*|"[^"\n]*"?|[A-Za-z][A-Za-z0-9]*|[0-9][0-9A-F]*[HX]?|[^(A-Za-z0-9"]+|\(/g;
  for (let match; (match = sign.exec(text));) {
    let [word] = match, kind = "";
    if (word === "(*") {
      const edge = /\(\*|\*\)/g;
      let depth = 1, end = text.length;
      edge.lastIndex = sign.lastIndex;
      for (let next; depth > 0 && (next = edge.exec(text));) {
        depth += next[0] === "(*" ? 1 : -1;
        if (depth === 0) end = edge.lastIndex;
      }
      word = text.slice(match.index, end);
      sign.lastIndex = end;
      kind = "c";
    } else if (word[0] === '"') kind = "s";
    else if (/[0-9]/.test(word[0])) kind = "n";
    else if (WORDS.has(word)) kind = "w";
    else if (KNOWN.has(word)) kind = "k";
    found.push([kind, word, match.index]);
  }
  return found;
}
// Shows a text in colours, the part at the place `wrong` underlined.
function paint(pre, text, wrong) {
  const shown = document.createDocumentFragment();
  for (const [kind, word, start] of parts(text)) {
    const hit = wrong >= start && wrong < start + word.length;
    if (hit && kind === "" ) {
      const cut = wrong - start;
      shown.append(word.slice(0, cut), el("span", { class: "wrong" }, word[cut]), word.slice(cut + 1));
    } else if (kind || hit) shown.append(el("span", { class: (kind + (hit ? " wrong" : "")).trim() }, word));
    else shown.append(word);
  }
  if (wrong >= text.length) shown.append(el("span", { class: "wrong" }, "\u00a0"));
  pre.replaceChildren(shown, "\n");
}
// The same after each key: a long text is shown plain at first, and in colours once the typing rests.
function repaint(cell) {
  clearTimeout(cell.painting);
  if (cell.source.length < 6000) { paint(cell.pre, cell.source, -1); return; }
  cell.pre.textContent = cell.source + "\n";
  cell.painting = setTimeout(() => paint(cell.pre, cell.source, cell.wrong), 400);
}
// Where line and column (of characters, from 1) are in a text.
function offsetOf(text, line, column) {
  const lines = text.split("\n");
  let offset = 0;
  for (let n = 0; n < line - 1 && n < lines.length; n++) offset += lines[n].length + 1;
  return offset + Array.from(lines[line - 1] || "").slice(0, column - 1).join("").length;
}

// ---- 5. Text cells: a small part of Markdown, made of elements alone

function inline(text) {
  const made = document.createDocumentFragment();
  const sign = /`([^`]+)`|\*\*([^*]+)\*\*|\*([^*]+)\*|_([^_]+)_|\[([^\]]+)\]\(((?:https?:\/\/|#|mailto:)[^)\s]+)\)/g;
  let from = 0;
  for (let match; (match = sign.exec(text));) {
    made.append(text.slice(from, match.index));
    if (match[1]) made.append(el("code", {}, match[1]));
    else if (match[2]) made.append(el("strong", {}, inline(match[2])));
    else if (match[3] || match[4]) made.append(el("em", {}, inline(match[3] || match[4])));
    else made.append(el("a", { href: match[6], rel: "noopener", target: match[6][0] === "#" ? null : "_blank" }, match[5]));
    from = sign.lastIndex;
  }
  made.append(text.slice(from));
  return made;
}
function markdown(text) {
  const made = document.createDocumentFragment(), lines = text.split("\n");
  for (let n = 0; n < lines.length;) {
    const line = lines[n], heading = /^(#{1,6})\s+(.*)$/.exec(line), item = /^\s*([-*+]|\d+\.)\s+/.exec(line);
    if (/^```/.test(line)) {
      const code = [];
      for (n++; n < lines.length && !/^```/.test(lines[n]); n++) code.push(lines[n]);
      n++;
      const pre = el("pre");
      paint(pre, code.join("\n"), -1);
      made.append(pre);
    } else if (heading) { made.append(el("h" + heading[1].length, {}, inline(heading[2]))); n++; }
    else if (item) {
      const list = el(/\d/.test(item[1]) ? "ol" : "ul");
      for (; n < lines.length && /^\s*([-*+]|\d+\.)\s+/.test(lines[n]); n++) list.append(el("li", {}, inline(lines[n].replace(/^\s*([-*+]|\d+\.)\s+/, ""))));
      made.append(list);
    } else if (/^>\s?/.test(line)) {
      const quoted = [];
      for (; n < lines.length && /^>\s?/.test(lines[n]); n++) quoted.push(lines[n].replace(/^>\s?/, ""));
      made.append(el("blockquote", {}, markdown(quoted.join("\n"))));
    } else if (line.trim() === "") n++;
    else {
      const words = [];
      for (; n < lines.length && lines[n].trim() !== "" && !/^(#{1,6}\s|```|>\s?|\s*([-*+]|\d+\.)\s)/.test(lines[n]); n++) words.push(lines[n]);
      made.append(el("p", {}, inline(words.join("\n"))));
    }
  }
  return made;
}

// ---- 6. The notebook that is open (nb), its cells, and how they look

let nb = null;
const KEPT = 4000000; // characters of one output that this page keeps as they come; the recorder keeps all
const SHOWN = 60000; // of them that it shows
const META = {
  kernelspec: { display_name: "Oberon-07", language: "oberon", name: "oberon" },
  language_info: { file_extension: ".Mod", mimetype: "text/x-oberon", name: "oberon", pygments_lexer: "componentpascal", version: "07" },
};

// A cell. `base` is the source that the server has (undefined: it has none yet); `request` what was last sent or seen for it;
// `state` "", "waiting", "running" or "asking"; `whole` that all its outputs were seen here, so that the server's are not newer.
function makeCell(type, source = "", id = newId()) {
  const cell = { id, type, source, base: undefined, metadata: {}, attachments: undefined, count: null, outputs: [], state: "", request: "", whole: false, skipped: "", wrong: -1, question: null, editing: false };
  makeView(cell);
  return cell;
}
function makeView(cell) {
  cell.pre = el("pre", { "aria-hidden": "true" });
  cell.area = el("textarea", {
    spellcheck: "false", autocapitalize: "off", autocomplete: "off", autocorrect: "off", rows: "1",
    placeholder: cell.type === "code" ? "MODULE Hello; IMPORT Out; BEGIN Out.String(\"Hello\"); Out.Ln END Hello.   or   Hello.Command" : "Text: # Heading, **bold**, `code`, - list",
    oninput: () => { cell.source = cell.area.value; cell.wrong = -1; repaint(cell); edited(); },
    onfocus: () => choose(cell, false), onkeydown: event => editorKey(event, cell),
    onblur: () => { if (cell.type !== "code") { cell.editing = false; draw(cell); } },
  });
  cell.edit = el("div", { class: "edit" }, cell.pre, cell.area);
  cell.shown = el("div", { class: "shown", ondblclick: () => startEditing(cell), onclick: () => { if (cell.source.trim() === "") startEditing(cell); } });
  cell.out = el("div", { class: "outputs", role: "group", "aria-label": "Output" });
  cell.asks = el("div", { class: "outputs" }); // the question, which keeps the focus while outputs are drawn again
  cell.number = el("span", { class: "count" });
  const run = icon("M4 2.5v11l9-5.5z", "Run this cell (Shift-Enter)", () => runCell(cell), "run");
  const tools = el("div", { class: "tools" },
    icon("M8 3l5 6h-3.5v4h-3V9H3z", "Move up", () => move(cell, -1)), icon("M8 13l5-6H9.5V3h-3v4H3z", "Move down", () => move(cell, 1)),
    button(cell.type === "code" ? "to text" : "to code", "Make it a text or a code cell (m, y)", () => changeType(cell, cell.type === "code" ? "markdown" : "code"), "quiet"),
    icon("M5 2h6l.5 1.5H14V5H2V3.500h2.500zM3 6h10l-.8 8.500H3.800z", "Delete this cell (d d)", () => remove(cell)));
  cell.view = el("section", { class: "cell " + (cell.type === "code" ? "code" : "text"), tabindex: "-1", role: "group", "data-id": cell.id,
    onmousedown: () => choose(cell, false), onfocus: event => { if (event.target === cell.view) choose(cell, false); } },
    el("div", { class: "gutter" }, cell.type === "code" ? run : null, cell.type === "code" ? cell.number : null),
    el("div", { class: "body" }, cell.edit, ...(cell.type === "code" ? [cell.out, cell.asks] : [cell.shown])), tools);
}
// Says which cell it is: its place, its kind, and how it stands with its run.
function label(cell) {
  const place = nb.cells.indexOf(cell) + 1, kind = cell.type === "code" ? "code" : "text";
  const run = cell.type !== "code" ? "" : cell.state ? ", " + cell.state : cell.count === null ? "" : ", run as " + cell.count;
  cell.view.setAttribute("aria-label", `Cell ${place} of ${nb.cells.length}, ${kind}${run}`);
  cell.area.setAttribute("aria-label", `${kind === "code" ? "Code" : "Text"} of cell ${place}`);
  if (cell === nb.chosen) cell.view.setAttribute("aria-current", "true"); else cell.view.removeAttribute("aria-current");
}
// Brings what is shown of a cell up to date; its outputs only where `outputs` asks for it.
function draw(cell, outputs = true) {
  if (cell.area.value !== cell.source) cell.area.value = cell.source;
  cell.view.classList.toggle("running", cell.state === "running" || cell.state === "asking");
  cell.view.classList.toggle("waiting", cell.state === "waiting");
  cell.number.textContent = cell.state ? "[*]" : `[${cell.count === null ? " " : cell.count}]`;
  label(cell);
  paint(cell.pre, cell.source, cell.wrong);
  if (cell.type !== "code") {
    cell.edit.hidden = !cell.editing;
    cell.shown.hidden = cell.editing;
    if (!cell.editing) cell.shown.replaceChildren(cell.source.trim() ? markdown(cell.source) : el("p", { class: "skipped" }, "Empty text: click to write"));
  } else if (outputs) drawOutputs(cell);
}
function drawOutputs(cell) {
  clearTimeout(cell.flush);
  cell.flush = 0;
  cell.out.replaceChildren();
  for (const output of cell.outputs) cell.out.append(outputView(cell, output));
  if (cell.skipped) cell.out.append(el("div", { class: "skipped" }, "Not run: " + cell.skipped + "."));
  if (!cell.question) cell.asks.replaceChildren();
  else if (!cell.asks.contains(cell.question)) cell.asks.replaceChildren(cell.question);
}
function outputView(cell, output) {
  if (output.output_type === "stream") return el("pre", {}, ...typedParts(output));
  if (output.output_type === "error") return errorView(cell, output);
  const data = output.data || {};
  return el("pre", { class: "skipped" }, data["text/plain"] === undefined ? "(an output of another kind)" : joined(data["text/plain"]));
}
// A stream's text as far as it is shown, and in other colour what was typed into it here.
function typedParts(output) {
  const whole = joined(output.text), text = whole.slice(0, SHOWN);
  if (whole.length > SHOWN) return [text, el("span", { class: "more" }, moreThan(whole.length))];
  if (!output.typed) return [text];
  const made = [];
  let from = 0;
  for (const [start, line] of output.typed) { made.push(text.slice(from, start), el("span", { class: "typed" }, line + "\n")); from = start; }
  made.push(text.slice(from));
  return made;
}
const moreThan = length => `\n… ${(length - SHOWN).toLocaleString("en")} more characters are not shown; the saved notebook has them.\n`;
function errorView(cell, output) {
  const evalue = output.evalue || "", found = /^(compile|link) error (\d+)|^(trap) (\d+)/.exec(evalue);
  const meaning = found ? (MEANS[found[1] || found[3]] || {})[found[2] || found[4]] : MEANS.ends[output.ename];
  const made = el("div", { class: "error", role: "group", "aria-label": "Error" }, el("b", {}, evalue || output.ename), meaning ? " " + meaning + " " : " ");
  const place = /^compile error \d+ at (\d+):(\d+)$/.exec(evalue), trap = /^trap \d+ in ([A-Za-z0-9]+), line (\d+)$/.exec(evalue);
  if (place) made.append(button("show", "Go to the place in the cell", () => goTo(cell, +place[1], +place[2])));
  if (trap) made.append(button("show line " + trap[2], "Go to the line in the module's cell", () => { const home = homeOf(trap[1], cell); if (home) goTo(home, +trap[2], 1); }));
  if (!found && !meaning && output.traceback) made.append(el("pre", {}, joined(output.traceback.map(line => line + "\n")).replace(/\u001b\[[0-9;]*m/g, "")));
  return made;
}
// The name of the module that a text is, or nothing.
function moduleIn(text) {
  const words = parts(text).filter(([kind, word]) => kind !== "c" && word.trim() !== "");
  return words.length > 1 && words[0][1] === "MODULE" ? words[1][1] : "";
}
// The cell that holds a module: the one asked first, then the last that was run.
function homeOf(module, cell) {
  const holds = one => one.type === "code" && moduleIn(one.source) === module;
  if (holds(cell)) return cell;
  return nb.cells.filter(holds).sort((a, b) => (b.count || 0) - (a.count || 0))[0];
}
function goTo(cell, line, column) {
  const offset = offsetOf(cell.source, line, column), end = column > 1 ? offset : offsetOf(cell.source, line + 1, 1) - 1;
  cell.wrong = offset;
  draw(cell, false);
  cell.area.focus();
  cell.area.setSelectionRange(offset, Math.max(offset, Math.min(end, cell.source.length)));
  cell.view.scrollIntoView({ block: "nearest" });
}

// ---- 7. Changing the notebook

function layOut() {
  const host = $("cells"), active = document.activeElement;
  nb.cells.forEach((cell, n) => { if (host.children[n] !== cell.view) host.insertBefore(cell.view, host.children[n] || null); });
  while (host.children.length > nb.cells.length) host.lastChild.remove();
  for (const cell of nb.cells) { cell.view.classList.toggle("chosen", cell === nb.chosen); label(cell); }
  if (active !== document.activeElement && active.isConnected) active.focus(); // moving an element takes its focus
}
function choose(cell, focus = true) {
  nb.chosen = cell;
  for (const one of nb.cells) { one.view.classList.toggle("chosen", one === cell); label(one); }
  if (focus && cell) { cell.view.focus({ preventScroll: true }); cell.view.scrollIntoView({ block: "nearest" }); }
}
function startEditing(cell) {
  cell.editing = true;
  draw(cell, false);
  cell.area.focus();
}
function insert(place, type, edit = true) {
  const cell = makeCell(type);
  nb.cells.splice(place, 0, cell);
  draw(cell);
  layOut();
  choose(cell);
  if (edit) startEditing(cell);
  edited();
  return cell;
}
function move(cell, by) {
  const from = nb.cells.indexOf(cell), to = from + by;
  if (to < 0 || to >= nb.cells.length) return;
  nb.cells.splice(from, 1);
  nb.cells.splice(to, 0, cell);
  layOut(); choose(cell); edited();
}
function remove(cell) {
  const place = nb.cells.indexOf(cell);
  nb.cells.splice(place, 1);
  nb.gone.push({ cell, place });
  if (nb.cells.length === 0) nb.cells.push(makeCell("code"));
  nb.cells.forEach(one => draw(one, false));
  layOut();
  choose(nb.cells[Math.min(place, nb.cells.length - 1)]);
  edited();
  notice("mild", "The cell is deleted.", { name: "Undo (z)", run: undoRemove });
}
function undoRemove() {
  const last = nb.gone.pop();
  if (!last) return;
  nb.cells.splice(Math.min(last.place, nb.cells.length), 0, last.cell);
  notice("mild", "");
  layOut(); choose(last.cell); edited();
}
function changeType(cell, type) {
  if (cell.type === type) return;
  const changed = makeCell(type, cell.source, cell.id);
  nb.cells[nb.cells.indexOf(cell)] = changed;
  draw(changed); layOut(); choose(changed); edited();
}
function clearOutputs() {
  for (const cell of nb.cells) if (cell.type === "code" && !cell.state) { Object.assign(cell, { outputs: [], count: null, skipped: "", wrong: -1, whole: true }); draw(cell); }
  edited();
}

// ---- 8. Saving: one PUT at a time. Where another window has saved meanwhile it is refused with 409, and what that saved is taken in

function edited() {
  nb.edits++;
  showSaved();
  clearTimeout(nb.timer);
  nb.timer = setTimeout(() => save().catch(() => {}), 1200 + 600 * Math.random());
}
const isEdited = () => nb && nb.edits !== nb.savedEdits;
function showSaved(fault = "") {
  const place = $("saved");
  if (!place) return;
  place.className = fault ? "saved bad" : "saved";
  place.textContent = fault ? "not saved: " + fault : isEdited() ? "edited" : "saved";
}
// The notebook as the server takes it.
function asDocument() {
  const cells = nb.cells.map(cell => {
    const common = { cell_type: cell.type, id: cell.id, metadata: cell.metadata, source: cell.source };
    if (cell.type !== "code") return cell.attachments === undefined ? common : { ...common, attachments: cell.attachments };
    return { ...common, execution_count: cell.count, outputs: cell.outputs.map(({ typed, ...output }) => output) };
  });
  return { cells, metadata: { ...META, ...nb.metadata }, nbformat: 4, nbformat_minor: 5 };
}
// Reads and saves of a notebook go one after the other, so that no answer is older than what was put.
function inTurn(work) {
  const book = nb;
  book.turn = book.turn.catch(() => {}).then(() => book === nb ? work(book) : undefined);
  return book.turn;
}
const save = (force = false) => inTurn(book => saveNow(book, force));
const refresh = () => inTurn(refreshNow);
const refreshThen = then => refresh().catch(() => {}).then(then);
async function saveNow(book, force) {
  if (!force && !isEdited()) return;
  clearTimeout(book.timer);
  try {
    for (let tries = 3; ; tries--) {
      await findAgain(); // under the name that another window gave it
      if (book !== nb) return;
      try { return await put(book); } catch (fault) { if (fault.status !== 409 || tries === 0) throw fault; }
      await refreshNow(book); // the file has changed since it was read
      if (book !== nb) return;
    }
  } catch (fault) {
    if (book === nb) showSaved(fault.message);
    throw fault;
  }
}
async function put(book) {
  const edits = book.edits, sources = book.cells.map(cell => [cell, cell.source]);
  const answer = await api("PUT", contents(book.path), { type: "notebook", content: asDocument(), last_modified: book.modified || null });
  if (book !== nb) return;
  nb.modified = answer.last_modified;
  nb.savedEdits = edits;
  nb.gone.forEach(({ cell }) => { cell.base = undefined; });
  for (const [cell, source] of sources) cell.base = source;
  nb.savedOrder = nb.cells.map(cell => cell.id).join(" ");
  showSaved();
}
// Takes in what the server has: sources of cells that weren't edited here, cells that others made or deleted, outputs of
// cells that were not wholly seen here.
async function refreshNow(book) {
  const there = await api("GET", contents(book.path));
  if (book === nb) take(there);
}
function take(there) {
  nb.modified = there.last_modified;
  nb.metadata = there.content.metadata;
  const mine = new Map(nb.cells.map(cell => [cell.id, cell])), deleted = new Set(nb.gone.map(({ cell }) => cell.id));
  const moved = nb.cells.filter(cell => cell.base !== undefined).map(cell => cell.id).join(" ") !== nb.savedOrder;
  const order = [], changed = new Set();
  for (const theirs of there.content.cells) {
    const source = joined(theirs.source);
    let cell = mine.get(theirs.id);
    if (!cell && deleted.has(theirs.id)) continue;
    if (!cell || (cell.type !== theirs.cell_type && cell.source === cell.base)) {
      cell = makeCell(theirs.cell_type, source, theirs.id);
      changed.add(cell);
    } else if (cell.source === cell.base && cell.source !== source) {
      Object.assign(cell, { source, wrong: -1 });
      changed.add(cell);
    }
    cell.base = source;
    cell.metadata = theirs.metadata;
    cell.attachments = theirs.attachments;
    if (theirs.cell_type === "code" && !cell.state && !cell.whole) {
      changed.add(cell);
      cell.count = theirs.execution_count;
      cell.outputs = theirs.outputs;
    }
    mine.delete(theirs.id);
    order.push(cell);
  }
  if (moved) order.sort((a, b) => place(a) - place(b));
  for (const cell of mine.values()) if (cell.base === undefined || cell.source !== cell.base || cell.state) order.splice(Math.min(nb.cells.indexOf(cell), order.length), 0, cell);
  function place(cell) { const at = nb.cells.findIndex(one => one.id === cell.id); return at < 0 ? Infinity : at; }
  nb.savedOrder = there.content.cells.map(cell => cell.id).join(" ");
  nb.cells = order;
  if (nb.cells.length === 0) nb.cells.push(makeCell("code"));
  nb.cells.forEach(cell => { if (changed.has(cell) || cell.base === undefined) draw(cell); });
  if (!nb.cells.includes(nb.chosen)) nb.chosen = nb.cells.find(cell => nb.chosen && cell.id === nb.chosen.id) || nb.cells[0];
  layOut();
}

// ---- 9. The kernel: a session, its channel, and what comes over it

// A request's msg_id names its cell: what the kernel shows to all carries it, and so every window knows the cell.
const requestId = cell => `cell:${cell.id}:${TAB}:${newId()}`;
const cellOf = id => { const found = /^cell:([^:]+):/.exec(id || ""); return found ? nb.cells.find(cell => cell.id === found[1]) : undefined; };
const isMine = id => (id || "").split(":")[2] === TAB;

function send(channel, type, content, options = {}) {
  const header = { msg_id: options.id || newId(), msg_type: type, session: TAB, username: "page", date: new Date().toISOString(), version: "5.4" };
  const text = JSON.stringify({ header, parent_header: options.parent || {}, metadata: options.metadata || {}, content, channel, buffers: [] });
  if (new TextEncoder().encode(text).length > 1048576) throw new Refused(413, "a cell of more than 1 MB can't be run");
  nb.socket.send(text);
}
// Connects, and again each time the connection is lost, until the notebook is left.
async function keepConnected(book) {
  for (let tries = 0; book === nb; tries++) {
    try {
      if (nb.session && !await findAgain()) { notice("kernel", "This notebook was deleted elsewhere.", { name: "Keep it", run: () => save(true).then(() => keepConnected(book)) }); return; }
      if (book !== nb) return;
      const session = await api("POST", "/api/sessions", { path: nb.path, type: "notebook", name: nameOf(nb.path), kernel: { name: "oberon" } });
      if (book !== nb) return;
      if (nb.session && nb.session.kernel.id !== session.kernel.id) kernelIsNew("The kernel is a new one: no module is loaded.");
      nb.session = session;
      if (await channel(book, session)) tries = 0;
      for (const cell of nb ? nb.cells : []) {
        cell.whole = false;
        if (cell.state === "asking") { Object.assign(cell, { state: "running", question: null }); draw(cell); }
      }
    } catch (fault) {
      if (fault.status === 503) notice("kernel", "Sixteen kernels run already. Stop one in the list, and this notebook starts by itself.");
      else if (fault.status >= 400) notice("kernel", "No kernel for this notebook: " + fault.message + ".");
    }
    if (book !== nb) return;
    nb.connected = false;
    showState();
    await wait(Math.min(8000, 300 * 2 ** tries));
  }
}
// Where the notebook is now: its session follows a new name. Answers false where it is gone.
async function findAgain() {
  const session = nb.session && await api("GET", "/api/sessions/" + nb.session.id).catch(fault => { if (fault.status === 404) return null; throw fault; });
  if (session && session.path !== nb.path) movedTo(session.path);
  return !!session || await api("GET", contents(nb.path) + "?content=0").then(() => true, fault => { if (fault.status === 404) return false; throw fault; });
}
function movedTo(path) {
  nb.path = path;
  history.replaceState(null, "", "#/" + urlPath(path));
  $("title").value = bareName(path);
  showState();
}
// One connection, from its handshake to its end. Answers whether it was ever open.
async function channel(book, session) {
  const socket = new WebSocket(`${location.protocol === "https:" ? "wss" : "ws"}://${location.host}/api/kernels/${session.kernel.id}/channels?session_id=${TAB}`);
  nb.socket = socket;
  nb.open = new Set();
  nb.others = 1; // until no cell runs that may have begun before
  nb.before = nb.cells.filter(cell => cell.state && !nb.line.includes(cell)).map(cell => [cell, cell.request]);
  let wasOpen = false;
  socket.onopen = () => {
    wasOpen = true;
    send("control", "kernel_info_request", {}, { id: "joined:" + TAB });
    send("shell", "kernel_info_request", {}, { id: "rested:" + TAB }); // answered between cells alone
  };
  socket.onmessage = event => { if (book === nb && nb.socket === socket) received(JSON.parse(event.data)); };
  await new Promise(done => { socket.onclose = done; });
  if (!wasOpen && book === nb) {
    const kernel = await api("GET", "/api/kernels/" + session.kernel.id).catch(() => null);
    notice("kernel", kernel && kernel.connections >= 7 ? "Seven windows share this kernel already. Close one, and this connects by itself." : "");
  }
  return wasOpen;
}
async function afterJoin() {
  nb.connected = true;
  notice("kernel", "");
  await refresh().catch(() => {});
  sendNext();
  showState();
  if (isEdited()) save().catch(() => {});
}
// No cell runs: what ran before this connection has ended, and its outputs are in the notebook.
function afterRest() {
  nb.others = 0;
  const over = nb.before.filter(([cell, request]) => cell.state && cell.request === request).map(([cell]) => cell);
  for (const cell of over) { Object.assign(cell, { state: "", whole: false, question: null }); draw(cell); }
  if (over.length) refreshThen(() => over.forEach(lateAnswer));
}
function received(message) {
  const parent = message.parent_header, id = parent.msg_id, content = message.content, kind = message.header.msg_type;
  const cell = parent.msg_type === "execute_request" ? cellOf(id) : undefined;
  switch (kind) {
    case "status":
      if (content.execution_state === "busy") nb.open.add(id);
      else {
        nb.open.delete(id);
        if (parent.msg_type === "execute_request") ended(cell, id);
        if (parent.msg_type === "shutdown_request" && !nb.restarting) kernelIsNew("The kernel was restarted: no module is loaded.");
      }
      break;
    case "kernel_info_reply":
      if (id === "joined:" + TAB) afterJoin();
      if (id === "rested:" + TAB) afterRest();
      break;
    case "execute_input": {
      const at = cell || (cellIdOf(id) ? insertForeign(cellIdOf(id), content.code) : undefined);
      if (at) began(at, id, content);
      break;
    }
    case "stream":
      if (cell && cell.request !== id && !cell.state) { Object.assign(cell, { request: id, state: "running", outputs: [], whole: false }); nb.others = 0; draw(cell); }
      if (cell && cell.request === id) streamed(cell, content);
      break;
    case "error":
      if (cell && cell.request === id) {
        const place = /^compile error \d+ at (\d+):(\d+)$/.exec(content.evalue);
        if (place) cell.wrong = offsetOf(cell.source, +place[1], +place[2]);
        cell.outputs.push({ output_type: "error", ...content });
        draw(cell);
      }
      break;
    case "execute_reply":
      if (cell && content.status === "aborted") { Object.assign(cell, { skipped: FAILED, outputs: [], count: null }); draw(cell); }
      if (nb.sent && nb.sent.request === id) answered(content.status === "ok");
      break;
    case "input_request": if (cell) ask(cell, message.header); break;
  }
  showState();
}
const cellIdOf = id => (/^cell:([^:]+):/.exec(id || "") || [])[1];
// A cell that another window made and ran: it stands last until the notebook is read again.
function insertForeign(id, code) {
  const cell = makeCell("code", code, id);
  nb.cells.push(cell);
  layOut();
  refreshThen();
  return cell;
}
function began(cell, id, content) {
  if (!isMine(id) && cell.source === cell.base) cell.source = cell.base = content.code;
  Object.assign(cell, { request: id, state: "running", count: content.execution_count, outputs: [], whole: true, skipped: "", wrong: -1 });
  draw(cell);
}
function ended(cell, id) {
  nb.others = 0;
  if (!cell || cell.request !== id) { refreshThen(); return; }
  const seen = cell.whole || cell.skipped, fault = cell.outputs.find(output => output.output_type === "error");
  if (isMine(id)) say(`Cell ${nb.cells.indexOf(cell) + 1} ` + (cell.skipped ? "was not run" : fault ? "failed: " + (fault.evalue || fault.ename) : "has run"));
  Object.assign(cell, { state: "", question: null });
  draw(cell, !!cell.asks.firstChild);
  if (!seen || !isMine(id)) refreshThen(() => lateAnswer(cell));
}
// A reply that went to a lost connection: how the cell ended is seen from its outputs.
function lateAnswer(cell) {
  if (nb && nb.sent === cell && !cell.state) answered(!cell.outputs.some(output => output.output_type === "error"));
}
function streamed(cell, content) {
  let last = cell.outputs[cell.outputs.length - 1];
  if (!last || last.output_type !== "stream" || last.name !== content.name) {
    last = { output_type: "stream", name: content.name, text: "" };
    cell.outputs.push(last);
    cell.out.append(outputView(cell, last));
  }
  last.text = joined(last.text);
  if (last.text.length < KEPT) last.text += content.text;
  if (!cell.flush) cell.flush = setTimeout(() => flushStream(cell, last), 60);
}
// Shows what came to a stream in the last moments, at once.
function flushStream(cell, output) {
  cell.flush = 0;
  const pre = Array.from(cell.out.querySelectorAll("pre")).pop();
  if (!pre || cell.outputs[cell.outputs.length - 1] !== output || output.typed || output.text.length > SHOWN) { drawOutputs(cell); return; }
  const below = pre.scrollHeight - pre.scrollTop - pre.clientHeight < 40;
  pre.append(output.text.slice(pre.textContent.length));
  if (below) pre.scrollTop = pre.scrollHeight;
}
function ask(cell, header) {
  const line = el("input", { "aria-label": "Input for the cell", autocomplete: "off", autocapitalize: "off", spellcheck: "false", onkeydown: event => {
    if (event.key === "Enter" && !event.isComposing) { event.preventDefault(); answer(); }
    event.stopPropagation();
  } });
  const answer = () => {
    send("stdin", "input_reply", { value: line.value }, { parent: header });
    let last = cell.outputs[cell.outputs.length - 1];
    if (!last || last.output_type !== "stream") { last = { output_type: "stream", name: "stdout", text: "" }; cell.outputs.push(last); }
    last.text = joined(last.text);
    last.typed = [...(last.typed || []), [last.text.length, line.value]];
    Object.assign(cell, { question: null, state: "running" });
    draw(cell); showState(); startEditing(cell);
  };
  cell.question = el("div", { class: "asking", role: "group", "aria-label": "Question" }, el("span", {}, "Input:"), line, button("Enter", "Send the line", answer));
  cell.state = "asking";
  draw(cell);
  line.focus();
  say(`Cell ${nb.cells.indexOf(cell) + 1} asks for a line`);
}
function kernelIsNew(text) {
  Object.assign(nb, { open: new Set(), sent: null, line: [], others: 0, before: [] });
  for (const cell of nb.cells) if (cell.state) { Object.assign(cell, { state: "", question: null }); draw(cell); }
  notice("mild", text);
}
function showState() {
  const place = $("state");
  if (!place || !nb) return;
  const busy = nb.connected && (nb.open.size > 0 || nb.others > 0 || nb.cells.some(cell => cell.state));
  const [kind, text] = nb.restarting ? ["busy", "restarting"] : !nb.connected ? ["lost", nb.session ? "connection lost" : "connecting"]
    : nb.cells.some(cell => cell.state === "asking") ? ["ask", "asks for input"] : busy ? ["busy", "running"] : ["ready", "ready"];
  if (place.textContent !== text) place.textContent = text;
  place.className = "state " + kind;
  $("stop").disabled = kind !== "busy" && kind !== "ask";
  document.title = (busy ? "● " : "") + bareName(nb.path);
}

// ---- 10. Running

// Cells wait here, and each is sent once the one before has ended well. (Sent all at once, those that the kernel takes
// after it came to an error would be run.)
async function runCells(cells) {
  const code = cells.filter(cell => cell.type === "code" && !cell.state && cell.source.trim() !== "");
  if (!nb.connected) { notice("mild", "There is no connection to the kernel just now."); return; }
  for (const cell of code) { Object.assign(cell, { request: "", state: "waiting", skipped: "" }); draw(cell, false); }
  nb.line.push(...code);
  showState();
  try {
    if (isEdited()) await save(true);
  } catch (fault) { notice("save", "The notebook could not be saved (" + fault.message + "); the cells are run all the same."); }
  sendNext();
}
function sendNext() {
  if (nb.sent || !nb.connected || nb.line.length === 0) return;
  const cell = nb.sent = nb.line.shift();
  cell.request = requestId(cell);
  try {
    send("shell", "execute_request", { code: cell.source, silent: false, store_history: true, user_expressions: {}, allow_stdin: true, stop_on_error: true }, { id: cell.request, metadata: { cellId: cell.id } });
  } catch (fault) {
    cell.state = "";
    draw(cell, false);
    notice("run", fault.message);
    answered(false);
  }
}
// What was sent has its answer: the next cell is sent, or, after an error, none that waits.
function answered(well) {
  nb.sent = null;
  if (!well) leaveOut(FAILED);
  sendNext();
}
const FAILED = "a cell before it failed", STOPPED = "it was stopped before";
function leaveOut(why) {
  for (const cell of nb.line.splice(0)) { Object.assign(cell, { state: "", skipped: why, outputs: [], count: null }); draw(cell); }
}
function runCell(cell) {
  if (cell.type !== "code") { cell.editing = false; draw(cell); return Promise.resolve(); }
  return runCells([cell]);
}
async function interrupt() {
  leaveOut(STOPPED);
  showState();
  try { await api("POST", `/api/kernels/${nb.session.kernel.id}/interrupt`); } catch (fault) { notice("kernel", "The interrupt was refused: " + fault.message); }
}
async function restart(andRun = false) {
  if (!confirm("Restart the kernel? All modules are forgotten; the notebook stays as it is.")) return;
  nb.restarting = true;
  showState();
  try {
    await api("POST", `/api/kernels/${nb.session.kernel.id}/restart`);
    await wait(150);
    kernelIsNew("The kernel is restarted: no module is loaded.");
  } catch (fault) { notice("kernel", "The restart was refused: " + fault.message); }
  nb.restarting = false;
  showState();
  if (andRun) runCells(nb.cells);
}
async function rename(to) {
  const path = (folderOf(nb.path) ? folderOf(nb.path) + "/" : "") + to.trim().replace(/\.ipynb$/, "") + ".ipynb";
  if (path === nb.path || to.trim() === "") { $("title").value = bareName(nb.path); return; }
  try {
    await save();
    await api("PATCH", contents(nb.path), { path });
    movedTo(path);
    notice("name", "");
  } catch (fault) {
    $("title").value = bareName(nb.path);
    notice("name", fault.status === 409 ? "There is a notebook of this name already." : "It could not be renamed: " + fault.message);
  }
}
function download(name, text) {
  const link = el("a", { href: URL.createObjectURL(new Blob([text], { type: "application/octet-stream" })), download: name });
  link.click();
  setTimeout(() => URL.revokeObjectURL(link.href), 1000);
}

// The modules of the notebook, each as a file.
async function downloadModules() {
  const names = new Set(nb.cells.filter(cell => cell.type === "code").map(cell => moduleIn(cell.source)).filter(Boolean));
  if (names.size === 0) notice("mild", "No cell of this notebook is a module.");
  for (const name of names) { download(name + ".Mod", homeOf(name, nb.cells[0]).source + "\n"); await wait(250); }
}

// ---- 11. Keys

function editorKey(event, cell) {
  const area = cell.area, { selectionStart: from, selectionEnd: to, value } = area, plain = !event.ctrlKey && !event.metaKey && !event.altKey;
  if (event.key === "Tab" && plain && !event.shiftKey) { event.preventDefault(); document.execCommand("insertText", false, "  "); }
  else if (event.key === "Tab" && event.shiftKey) {
    event.preventDefault();
    const start = value.lastIndexOf("\n", from - 1) + 1, blanks = /^ {0,2}/.exec(value.slice(start))[0].length;
    if (blanks) { area.setSelectionRange(start, start + blanks); document.execCommand("delete"); area.setSelectionRange(Math.max(start, from - blanks), Math.max(start, to - blanks)); }
  } else if (event.key === "Enter" && plain && !event.shiftKey && cell.type === "code") {
    event.preventDefault();
    const start = value.lastIndexOf("\n", from - 1) + 1, blanks = /^[ \t]*/.exec(value.slice(start, from))[0];
    if (from === to && start + blanks.length === from && (value[from] || "\n") === "\n") area.setSelectionRange(start, from);
    document.execCommand("insertText", false, "\n" + blanks);
  } else if (event.key === "Escape") { event.preventDefault(); cell.editing = false; draw(cell, false); choose(cell); }
  else if (event.key === "ArrowUp" && plain && from === to && !value.slice(0, from).includes("\n")) step(event, cell, -1);
  else if (event.key === "ArrowDown" && plain && from === to && !value.slice(to).includes("\n")) step(event, cell, 1);
}
function step(event, cell, by) {
  const next = nb.cells[nb.cells.indexOf(cell) + by];
  if (!next) return;
  event.preventDefault();
  choose(next);
  if (next.type === "code") { next.area.focus(); const at = by > 0 ? 0 : next.source.length; next.area.setSelectionRange(at, at); }
}
let lastKey = "", lastTime = 0;
document.addEventListener("keydown", event => {
  if (!nb || $("help").open) return;
  const cell = nb.chosen, at = nb.cells.indexOf(cell), key = event.key, typing = /^(INPUT|TEXTAREA)$/.test(event.target.tagName);
  if ((event.ctrlKey || event.metaKey) && key.toLowerCase() === "s") { event.preventDefault(); nb.edits++; save(true).catch(() => {}); return; }
  if (key === "Enter" && (event.shiftKey || event.ctrlKey || event.metaKey || event.altKey) && cell && event.target.tagName !== "INPUT") {
    event.preventDefault();
    runCell(cell);
    if (event.altKey) insert(at + 1, "code");
    else if (event.shiftKey) { if (at + 1 < nb.cells.length) { choose(nb.cells[at + 1]); if (typing && nb.chosen.type === "code") nb.chosen.area.focus(); } else insert(at + 1, "code"); }
    return;
  }
  if (typing || event.ctrlKey || event.metaKey || event.altKey || /^(BUTTON|A)$/.test(event.target.tagName)) return;
  const twice = key === lastKey && event.timeStamp - lastTime < 700;
  [lastKey, lastTime] = twice ? ["", 0] : [key, event.timeStamp];
  const does = {
    Enter: () => startEditing(cell), ArrowUp: () => at > 0 && choose(nb.cells[at - 1]), ArrowDown: () => at + 1 < nb.cells.length && choose(nb.cells[at + 1]),
    k: () => at > 0 && choose(nb.cells[at - 1]), j: () => at + 1 < nb.cells.length && choose(nb.cells[at + 1]), K: () => move(cell, -1), J: () => move(cell, 1),
    a: () => insert(at, "code", false), b: () => insert(at + 1, "code", false), m: () => changeType(cell, "markdown"), y: () => changeType(cell, "code"),
    d: () => twice && remove(cell), z: undoRemove, i: () => twice && interrupt(), 0: () => twice && restart(), h: showHelp, "?": showHelp,
  }[key];
  if (does && cell) { event.preventDefault(); does(); }
});
// ---- 12. Help: the language on one screen, keys, and examples to open

const MODULES = {
  Tour: `MODULE Tour; (* A cell is one module. (* Comments nest. *) *)
  IMPORT In, Out; (* In and Out, and modules that were run before *)
  CONST size = 10;
  TYPE Point = RECORD x, y: INTEGER END;
  VAR i, sum: INTEGER; c: CHAR; yes: BOOLEAN; b: BYTE;
    a: ARRAY size OF INTEGER; name: ARRAY 32 OF CHAR; p: Point;

  PROCEDURE Square(n: INTEGER): INTEGER; (* a function *)
  BEGIN RETURN n * n END Square;

  PROCEDURE Swap(VAR x, y: INTEGER); (* VAR: changes what it is given *)
    VAR t: INTEGER;
  BEGIN t := x; x := y; y := t END Swap;

  PROCEDURE Show*; (* * exports it, so that Tour.Show is a command *)
  BEGIN Out.String("sum"); Out.Int(sum, 5); Out.Ln END Show;

BEGIN
  FOR i := 0 TO size - 1 DO a[i] := Square(i) END;
  WHILE i > 0 DO DEC(i); sum := sum + a[i] END;
  REPEAT INC(i, 2) UNTIL i >= 6;
  IF sum > 100 THEN Swap(a[0], a[9]) ELSIF sum = 0 THEN i := 1 ELSE i := 2 END;
  CASE i OF
    0: yes := FALSE | 1 .. 5, 7: yes := ODD(i) | 6: yes := ~(sum = 0) & (LEN(a) # 3)
  END;
  p.x := sum DIV 7; p.y := sum MOD 7; c := CHR(65); b := 0FFH; name := "Ada";
  Out.String(name); Out.Char(c); Out.Int(a[0], 4); Out.Ln; Show
END Tour.`,
  Fibonacci: `MODULE Fibonacci;
  IMPORT Out;

  PROCEDURE Fib*(n: INTEGER): INTEGER;
    VAR f: INTEGER;
  BEGIN
    IF n < 2 THEN f := n ELSE f := Fib(n - 1) + Fib(n - 2) END
    RETURN f
  END Fib;

  PROCEDURE Show*;
    VAR i: INTEGER;
  BEGIN
    FOR i := 0 TO 10 DO Out.Int(Fib(i), 4) END;
    Out.Ln
  END Show;

BEGIN
  Show
END Fibonacci.`,
  Stack: `MODULE Stack;
  CONST size = 8;
  VAR items: ARRAY size OF INTEGER;
    count*: INTEGER;

  PROCEDURE Push*(x: INTEGER);
  BEGIN
    items[count] := x;
    INC(count)
  END Push;

  PROCEDURE Pop*(VAR x: INTEGER);
  BEGIN
    ASSERT(count > 0);
    DEC(count);
    x := items[count]
  END Pop;
END Stack.`,
  Reverse: `MODULE Reverse;
  IMPORT Stack, Out;
  VAR i, x: INTEGER;

  PROCEDURE Underflow*;
    VAR y: INTEGER;
  BEGIN
    Stack.Pop(y)
  END Underflow;

BEGIN
  FOR i := 1 TO 5 DO Stack.Push(i * i) END;
  WHILE Stack.count > 0 DO Stack.Pop(x); Out.Int(x, 4) END;
  Out.Ln
END Reverse.`,
  Greeting: `MODULE Greeting;
  IMPORT In, Out;
  VAR name: ARRAY 32 OF CHAR;
    age: INTEGER;
BEGIN
  Out.String("Who are you, and how old?"); Out.Ln;
  In.Name(name);
  In.Int(age);
  IF In.Done THEN
    Out.String("Hello, "); Out.String(name);
    Out.String(", next year you are "); Out.Int(age + 1, 0); Out.Ln
  ELSE
    Out.String("That is no answer."); Out.Ln
  END
END Greeting.`,
  Mistake: `MODULE Mistake;
  VAR x: INTEGER;
BEGIN
  x := TRUE
END Mistake.`,
  Endless: `MODULE Endless;
  IMPORT Out;
  VAR i: INTEGER;

  PROCEDURE Show*;
  BEGIN
    Out.Int(i, 0); Out.Ln
  END Show;

BEGIN
  WHILE TRUE DO INC(i) END
END Endless.`,
};
// Name of the notebook, what it shows, and its cells: the name of a module above, a list of commands, or a text (# ..).
const EXAMPLES = [
  ["Fibonacci", "a recursive function", ["# Fibonacci\nRun the module (Shift-Enter), then its command.", "Fibonacci", "Fibonacci.Show"]],
  ["Stack", "a module that imports another, and a trap", ["# A stack\n`Reverse` imports `Stack`. The last cell fails an ASSERT: follow its line.", "Stack", "Reverse", "Reverse.Underflow"]],
  ["Greeting", "a cell that asks for a line", ["# Input\nAnswer under the cell, as *Ada 36*.", "Greeting"]],
  ["Mistake", "an error, and where it is", ["# An error\nThe types don't fit. Can you mend it?", "Mistake"]],
  ["Endless", "a loop without end, to be stopped", ["# Stop\nRun it, press Stop, then see how far it came.", "Endless", "Endless.Show"]],
  ["Tour", "all of the language", ["# A tour of the language", "Tour", "Tour.Show"]],
];
const KEYS = [
  ["Shift-Enter", "run the cell, go to the next"], ["Ctrl-Enter", "run the cell, stay"], ["Alt-Enter", "run the cell, make one below"], ["Ctrl-S", "save"],
  ["Esc", "leave the editor; then:"], ["Enter", "into the editor"], ["↑ ↓", "the cell above, below"], ["a b", "new cell above, below"], ["Shift-K Shift-J", "move the cell up, down"],
  ["m y", "make it text, code"], ["d d", "delete the cell"], ["z", "undo that"], ["i i", "interrupt"], ["0 0", "restart"],
];
const CALLS = [
  ["Out", "Int(i, width)  Char(c)  String(s)  Ln"], ["In", "Int(i)  Char(c)  Name(s)  String(s)  Open  Done"],
  ["Functions", "ABS ODD LEN ORD CHR LSL ASR ROR"], ["Procedures", "INC DEC ASSERT"], ["Operators", "+ - * DIV MOD   = # < <= > >=   & OR ~"],
];
function showHelp() {
  const table = rows => el("table", {}, ...rows.map(([name, text]) => el("tr", {}, el("td", {}, el("kbd", {}, name)), el("td", {}, text))));
  const tour = el("pre", { "aria-label": "A module with all of the language" });
  paint(tour, MODULES.Tour, -1);
  const close = icon("M3 4l1-1 4 4 4-4 1 1-4 4 4 4-1 1-4-4-4 4-1-1 4-4z", "Close", () => $("help").close());
  $("help").replaceChildren(close, el("h2", { id: "help-title" }, "Help"),
    el("p", {}, "A cell is one module, or a list of commands such as ", el("code", {}, "Hello.Show"),
      ". A module stays loaded until another of its name is run; modules that were run before can be imported. A command calls a procedure that has a * and no parameters."),
    el("div", { class: "two" }, el("div", {}, el("h3", {}, "The language"), tour, table(CALLS)),
      el("div", {}, el("h3", {}, "Examples"),
        el("ul", {}, ...EXAMPLES.map(example => el("li", {}, el("a", { href: "#/Examples/" + example[0] + ".ipynb", onclick: event => { event.preventDefault(); openExample(example); } }, example[0]), ": " + example[1]))),
        el("h3", {}, "Keys"), table(KEYS))));
  $("help").showModal();
}
// Opens an example's notebook, which is made where it is not there.
async function openExample([name, , cells]) {
  const path = "Examples/" + name + ".ipynb";
  $("help").close();
  try {
    await api("GET", contents(path) + "?content=0").catch(fault => { if (fault.status === 404) return makeExample(path, cells); throw fault; });
    location.hash = "#/" + urlPath(path);
  } catch (fault) { notice("make", "The example could not be made: " + fault.message); }
}
async function makeExample(path, cells) {
  await api("PUT", contents("Examples"), { type: "directory" }).catch(() => {}); // it may be there
  const made = cells.map(text => text[0] === "#" ? { cell_type: "markdown", id: newId(), metadata: {}, source: text }
    : { cell_type: "code", id: newId(), metadata: {}, source: MODULES[text] || text, execution_count: null, outputs: [] });
  await api("PUT", contents(path), { type: "notebook", content: { cells: made, metadata: META, nbformat: 4, nbformat_minor: 5 } });
}

// ---- 13. The two views: a notebook, and a folder

const freshBook = path => ({
  path, cells: [], gone: [], chosen: null, session: null, socket: null, connected: false, restarting: false, open: new Set(), line: [], sent: null, others: 0,
  edits: 0, savedEdits: 0, savedOrder: "", modified: "", metadata: {}, timer: 0, turn: Promise.resolve(),
});
function notebookBar(path) {
  const back = () => { location.hash = "#/" + urlPath(folderOf(path)) + (folderOf(path) ? "/" : ""); };
  const title = el("input", { id: "title", class: "title", value: bareName(path), "aria-label": "Name of the notebook", spellcheck: "false",
    onchange: event => rename(event.target.value), onkeydown: event => { if (event.key === "Enter") event.target.blur(); } });
  return [icon("M9 3L4 8l5 5 1.500-1.500L7 8l3.500-3.500z", "To the list of notebooks", back, "back"), title,
    el("span", { id: "saved", class: "saved" }), el("span", { class: "space" }), el("span", { id: "state", class: "state", role: "status" }, "connecting"),
    button("Run all", "Run all cells from the top", () => runCells(nb.cells), "main"),
    el("button", { id: "stop", type: "button", title: "Interrupt what runs (i i)", disabled: true, onclick: interrupt }, "Stop"),
    button("Restart", "Forget all modules (0 0)", () => restart()), menu()];
}
function menu() {
  const shut = event => { if (event.target.tagName === "BUTTON") event.currentTarget.open = false; };
  const left = event => { if (!event.currentTarget.contains(event.relatedTarget)) event.currentTarget.open = false; };
  return el("details", { class: "menu", onclick: shut, onfocusout: left }, el("summary", { "aria-label": "More" }, "⋯"), el("div", {},
    button("Restart and run all", "", () => restart(true)), button("Clear outputs", "", clearOutputs),
    button("Download notebook", "As a file .ipynb", () => download(nameOf(nb.path), JSON.stringify(asDocument(), null, 2) + "\n")),
    button("Download modules", "Each as a file .Mod", downloadModules), button("Help", "The language, keys, examples (h)", showHelp)));
}
async function openNotebook(path) {
  const book = nb = freshBook(path);
  $("bar").replaceChildren(...notebookBar(path));
  $("main").replaceChildren(el("div", { id: "cells" }), el("div", { class: "add" },
    button("+ Code", "A code cell at the end", () => insert(nb.cells.length, "code")), button("+ Text", "A text cell at the end", () => insert(nb.cells.length, "markdown"))));
  try {
    await refresh();
  } catch (fault) {
    if (book !== nb) return;
    const why = { 404: "There is no notebook " + path + ".", 400: "This notebook can't be read: it is none of version 4, or holds numbers with a fraction." }[fault.status];
    notice("open", why || "It can't be opened: " + fault.message, { name: "To the list", run: () => { location.hash = "#/"; } });
    return;
  }
  showSaved();
  choose(nb.cells[0]);
  if (nb.cells.length === 1 && nb.cells[0].source === "") startEditing(nb.cells[0]);
  keepConnected(book);
}
function closeNotebook() {
  if (!nb) return;
  if (isEdited()) api("PUT", contents(nb.path), { type: "notebook", content: asDocument() }, true).catch(() => {});
  const socket = nb.socket;
  nb = null;
  if (socket) socket.close();
}
async function openFolder(path) {
  document.title = "Oberon notebooks";
  const make = async body => { try { return await api("POST", contents(path), body); } catch (fault) { notice("make", "It could not be made: " + fault.message); return null; } };
  $("bar").replaceChildren(el("h1", {}, "Oberon notebooks"), el("span", { class: "space" }),
    button("New notebook", "", async () => { const made = await make({ type: "notebook" }); if (made) location.hash = "#/" + urlPath(made.path); }, "main"),
    button("New folder", "", async () => { if (await make({ type: "directory" })) openFolder(path); }), button("Help", "The language, keys, examples", showHelp));
  const crumbs = el("nav", { class: "crumbs", "aria-label": "Folder" }, el("a", { href: "#/" }, "Notebooks"));
  path.split("/").filter(Boolean).forEach((name, n, all) => crumbs.append(" / ", el("a", { href: "#/" + urlPath(all.slice(0, n + 1).join("/")) + "/" }, name)));
  let folder, sessions;
  try {
    [folder, sessions] = await Promise.all([api("GET", contents(path)), api("GET", "/api/sessions")]);
  } catch (fault) {
    $("main").replaceChildren(crumbs);
    notice("open", fault.message);
    return;
  }
  const running = new Map(sessions.map(session => [session.path, session]));
  const rows = folder.content.filter(one => !one.name.startsWith(".")).map(one => folderRow(path, one, running.get(one.path)));
  $("main").replaceChildren(crumbs, rows.length ? el("ul", { class: "list" }, ...rows) : el("div", { class: "list empty" },
    el("p", {}, "Nothing here yet. Make a notebook to begin, or open an example:"), ...EXAMPLES.map(one => button(one[0], one[1], () => openExample(one)))));
}
function folderRow(path, one, session) {
  const isBook = one.type === "notebook", bare = isBook ? bareName(one.name) : one.name;
  const act = async (what, run) => {
    try {
      await run();
      notice("act", "");
      await openFolder(path);
    } catch (fault) { notice("act", `${one.name} was not ${what}: ${fault.status === 400 && one.type === "directory" ? "the folder is not empty" : fault.message}`); }
  };
  const stop = () => api("DELETE", "/api/sessions/" + session.id);
  const rename = () => {
    const to = prompt("New name", one.name);
    if (to && to !== one.name) act("renamed", () => api("PATCH", contents(one.path), { path: (path ? path + "/" : "") + to }));
  };
  const remove = () => { if (confirm(`Delete ${one.name}?`)) act("deleted", async () => { if (session) await stop(); await api("DELETE", contents(one.path)); }); };
  return el("li", {}, el("span", { class: "kind", "aria-hidden": "true" }, isBook ? "◉" : one.type === "directory" ? "▸" : "·"),
    one.type === "file" ? el("span", { class: "name" }, bare) : el("a", { class: "name", href: "#/" + urlPath(one.path) + (isBook ? "" : "/") }, bare),
    session ? el("span", { class: "badge" }, "running") : null,
    session ? button("Stop", `End the kernel of ${bare}`, () => act("stopped", stop), "quiet") : null,
    button("Rename", `Rename ${bare}`, rename, "quiet"), button("Delete", `Delete ${bare}`, remove, "quiet"));
}

// ---- 14. The place named behind `#` decides what is shown

function route() {
  closeNotebook();
  const path = location.hash.replace(/^#\/?/, "").split("/").filter(Boolean).map(decodeURIComponent).join("/");
  if (path.endsWith(".ipynb")) openNotebook(path); else openFolder(path);
}
window.addEventListener("hashchange", route);
window.addEventListener("pagehide", closeNotebook);
window.addEventListener("beforeunload", event => { if (isEdited() && JSON.stringify(asDocument()).length > 60000) event.preventDefault(); }); // too long for a PUT that outlives the page
window.addEventListener("pageshow", event => { if (event.persisted) route(); });
document.addEventListener("visibilitychange", async () => {
  if (document.visibilityState !== "visible" || !nb || !nb.connected) return;
  const there = await api("GET", contents(nb.path) + "?content=0").catch(() => null);
  if (nb && there && there.last_modified !== nb.modified) refresh().catch(() => {});
});
if (window.top === window) route();
else document.body.replaceChildren("This page does not work inside another one."); // where its buttons could be pressed unseen
</script>
</body>
</html>
"####;

/// The page for a browser.
pub fn page() -> &'static str
    ensures { result.now ≡ PAGE.now }
{
    PAGE
}
