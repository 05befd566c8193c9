//! The script of the desk's page.
ghost use Rattle.std.specs.Prelude.{◌≡◌};
ghost use Rattle.page_files.specs.Files.{script_file};

/// The script of the desk's page, whole (docs/manual/page.md).
pub fn desk_script() -> &'static [u8]
    ensures { result.now ≡ script_file }
{
    SCRIPT
}

/// The script as it is: JavaScript between the quotes, which has no quote and no backslash.
pub static SCRIPT: &[u8] =
    b"// The page of the desk: what its routes answer, shown in five views and kept current.

// ---- Limits and words

const POLL = 2000; // milliseconds between two questions for what is new
const PATIENCE = 10000; // milliseconds after which a question is given up
const TRACK_MANAGED = 982800; // tracks of a track-managed part, at most
const VOLUMES_SHOWN = 16;
const STRIPS_OF_A_SET = 8;
const PIECES_JOINED = 400000; // extents and gaps of one volume that are read, at most
const LINES_AROUND = 6;
const LINES_BESIDE = 4;
const LINE_END = String.fromCharCode(10);
const BACKSLASH = String.fromCharCode(92);
const QUOTE = String.fromCharCode(34);

const MEANINGS = {
  A00: 'the data set was allocated',
  A01: 'the data set got no storage class, and is not catalogued',
  A02: 'the data set has more extents',
  A03: 'the data set is gone, and its tracks are free',
  A04: 'the deck is active',
  A05: 'the status was varied',
  A06: 'what was asked is shown',
  A07: 'request numbers below the floor are refused from now on',
  A08: 'the used tracks are noted',
  A09: 'unused tracks were freed',
  R10: 'the job used this number for another request',
  R11: 'the number is below the floor of the job',
  R12: 'no configuration is active',
  R13: 'a data set of this name is catalogued',
  R14: 'a routine ended with another code than 0',
  R15: 'the routines gave a class that the active configuration lacks',
  R16: 'neither the request nor its data class names a space',
  R17: 'the routine lists no storage group',
  R18: 'no volume can grant the space',
  R19: 'no data set of this name is catalogued',
  R20: 'the data set can not be extended',
  R21: 'the deck has a fault',
  R22: 'the volume holds an extent, and the deck lacks it or has it with fewer tracks',
  R23: 'the active configuration has no storage group or volume of this name',
  R24: 'the journal has no place for the request',
  R25: 'the data set was granted fewer tracks',
  F30: 'the keeper of the records failed; ask again with the same number',
  M31: 'memory was wanting',
};

const FAULTS = {
  K0: 'what is asked here is not built',
  K1: 'the deck is no TOML document',
  K2: 'a deck has no such key here',
  K3: 'a required key is missing here',
  K4: 'the value is wrong',
  K5: 'this key is no name of its kind',
  K6: 'the volume stands in two storage groups',
  K7: 'the routine has a fault',
  K8: 'the routine sets a name that the deck does not define',
  K9: 'there are more than the limit allows',
};

const STATUS_WORDS = {
  NOTCON: 'not connected',
  DISALL: 'disabled',
  DISNEW: 'disabled for new data sets',
  QUIALL: 'quiesced',
  QUINEW: 'quiesced for new data sets',
};

const KINDS = { DATACLAS: 'dataclass', STORCLAS: 'storclass', MGMTCLAS: 'mgmtclass', STORGRP: 'storgroup' };

const FIELDS = [
  { name: 'JOB', label: 'Job', size: 8, value: 'JOB1' },
  { name: 'NUMBER', label: 'Request number', size: 10, hint: 'for Allocate' },
  { name: 'DSN', label: 'Data set name', size: 44, wide: true, value: '' },
  { name: 'UNITS', label: 'Space in', choices: ['TRK', 'CYL'] },
  { name: 'PRIMARY', label: 'Primary quantity', size: 8, value: '10' },
  { name: 'SECONDARY', label: 'Secondary quantity', size: 8, value: '' },
];

const MORE_FIELDS = [
  ['DATACLAS', 'Data class', 8], ['STORCLAS', 'Storage class', 8], ['MGMTCLAS', 'Management class', 8],
  ['VOLCNT', 'Volume count', 2], ['RETPD', 'Retention, days', 4], ['DAY', 'Day of the request', 7],
  ['EATTR', 'EATTR', 3], ['UNIT', 'UNIT', 8], ['VOL', 'Volumes', 44],
  ['USER', 'USER', 8], ['GROUP', 'GROUP', 8], ['PGM', 'PGM', 8], ['DD', 'DD', 8],
  ['DSORG', 'DSORG', 8], ['RECORG', 'RECORG', 8], ['DSNTYPE', 'DSNTYPE', 8], ['DSTYPE', 'DSTYPE', 8],
  ['ACSENVIR', 'ACSENVIR', 8], ['XMODE', 'XMODE', 8], ['APPLIC', 'APPLIC', 8], ['OWNER', 'OWNER', 8],
  ['ACCT', 'ACCT', 44], ['STEPACCT', 'STEPACCT', 44], ['EXPDT', 'EXPDT', 7], ['BLKSIZE', 'BLKSIZE', 10],
  ['DEFDC', 'DEFDC', 8], ['DEFSC', 'DEFSC', 8], ['DEFMC', 'DEFMC', 8],
].map(([name, label, size]) => ({ name, label, size }));

const figures = new Intl.NumberFormat('en-US');

function number(value) {
  return Number.isFinite(value) ? figures.format(value) : '-';
}

function counted(value, one, many = `${one}s`) {
  return `${number(value)} ${value === 1 ? one : many}`;
}

function percent(part, whole) {
  if (!(whole > 0)) return '-';
  const share = (100 * part) / whole;
  if (share > 0 && share < 1) return 'under 1 %';
  if (share > 99 && share < 100) return 'over 99 %';
  return `${Math.round(share)} %`;
}

function capitals(text) {
  return text.trim().toUpperCase();
}

// ---- Elements. Texts become text nodes, whoever wrote them.

const SVG = 'http://www.w3.org/2000/svg';

function byId(id) {
  return document.getElementById(id);
}

function make(tag, attributes = {}, ...children) {
  return furnish(document.createElement(tag), attributes, children);
}

function shape(tag, attributes = {}, ...children) {
  return furnish(document.createElementNS(SVG, tag), attributes, children);
}

function furnish(element, attributes, children) {
  for (const [name, value] of Object.entries(attributes)) {
    if (typeof value === 'function') element.addEventListener(name, value);
    else if (value === true) element.setAttribute(name, '');
    else if (value !== false && value !== null && value !== undefined) element.setAttribute(name, value);
  }
  element.append(...children.flat(Infinity).filter((child) => child !== null && child !== undefined));
  return element;
}

function link(hash, text, attributes = {}) {
  return make('a', { href: hash, ...attributes }, text);
}

// Puts new children into a place; what had the focus there has it again, with what was typed into it.
function replace(place, ...children) {
  const held = place.contains(document.activeElement) ? document.activeElement : null;
  known.isReplacing = true;
  place.replaceChildren(...children.flat(Infinity).filter((child) => child !== null));
  known.isReplacing = false;
  const again = [...place.querySelectorAll('[data-key]')].find((it) => it.dataset.key === held?.dataset.key);
  if (!again) return;
  if (again.matches('input')) again.value = held.value;
  again.focus({ preventScroll: true });
}

function note(id, sentence) {
  const place = byId(id);
  place.hidden = !sentence;
  if (place.textContent !== (sentence || '')) place.textContent = sentence || '';
}

function empty(sentence) {
  return make('p', { class: 'empty' }, sentence);
}

// A table whose cells name their column, so that it can be read as a list where it is narrow.
function table(name, columns, rows) {
  const heads = columns.map((column) => make('th', { scope: 'col', class: column.class }, column.title));
  return make('table', { class: name }, make('thead', {}, make('tr', {}, heads)), make('tbody', {}, rows));
}

function cells(columns, values) {
  return columns.map((column, at) => cell(column, values[at] ?? null));
}

function cell(column, value) {
  const name = value === null ? `${column.class ?? ''} none` : column.class;
  return make('td', { 'class': name, 'data-title': column.title }, value ?? '-');
}

// ---- Asking the desk

class Gone extends Error {}

async function ask(path, options = {}) {
  try {
    const signal = AbortSignal.timeout(PATIENCE);
    const response = await fetch(path, { cache: 'no-store', signal, ...options });
    const text = await response.text();
    return { status: response.status, text, body: read(text) };
  } catch {
    throw new Gone(path);
  }
}

function post(path, body = '') {
  return ask(path, { method: 'POST', body, headers: { 'Content-Type': 'application/json' } });
}

function read(text) {
  try {
    return JSON.parse(text);
  } catch {
    return null;
  }
}

function isGood(answer) {
  return answer.status === 200 && answer.body !== null;
}

// Whether the desk has no such page, and not merely nothing to show there.
function isMissing(answer) {
  const error = answer.body?.error;
  return answer.status === 405 || (answer.status === 404 && (!error || error.includes('no page')));
}

// Whether what was asked may stand all the same, or be asked again: it keeps its number then.
function isInDoubt(answer) {
  return isGood(answer) && ['F30', 'M31'].includes(answer.body.code);
}

function sentenceOf(answer) {
  const error = answer.body?.error;
  return typeof error === 'string' ? error : `the desk answered with status ${answer.status}`;
}

function list(value) {
  return Array.isArray(value) ? value : [];
}

function segment(text) {
  return encodeURIComponent(text);
}

// All extents and gaps of a volume, page by page.
async function askVolume(volser) {
  const first = await ask(`/volume/${segment(volser)}`);
  let next = first.body?.next;
  while (isGood(first) && Number.isInteger(next) && first.body.extents.length < PIECES_JOINED) {
    const more = await ask(`/volume/${segment(volser)}/from/${next}`);
    if (!isGood(more) || !(more.body.next === null || more.body.next > next)) break;
    first.text += more.text;
    first.body.extents = first.body.extents.concat(list(more.body.extents));
    first.body.gaps = first.body.gaps.concat(list(more.body.gaps));
    next = more.body.next;
  }
  return first;
}

// Does a thing for each of a list, four at a time.
async function eachOf(items, work) {
  const rest = [...items];
  const worker = async () => {
    while (rest.length > 0) await work(rest.shift());
  };
  await Promise.all([worker(), worker(), worker(), worker()]);
}

// ---- What is known

const known = {
  desk: null, // what /desk answered last
  text: null, // its text
  gone: false,
  answers: [], // the last entries, newest first
  lastPlace: 0, // the greatest place of an entry that was seen
  load: 0, // the number of the last load; an older one's answers are dropped
  place: { view: 'pool', parts: [] },
  numbers: new Map(), // job to the last request number given here
  volumes: new Map(), // serial to what /volume answered, and the row of /volumes that it stands for
  colors: null, // of strips, until light and dark change
  focus: new Map(), // strip to the first track of the piece that is pointed at
  isReplacing: false, // while elements make place for new ones
  isSame: false, // while a view is loaded anew behind entries that changed nothing
  unanswered: null, // an activation that was asked and not answered: its text and number
  deck: null, // the active deck's text, where the desk shows it
  deckOf: null, // the activation whose deck that is
};

// A request number that this page gave to nobody: the seconds since 1970, or one more than the last.
function freshNumber(job) {
  const now = Math.floor(Date.now() / 1000) % 4294967296;
  const fresh = Math.max(now, (known.numbers.get(job) ?? 0) + 1);
  known.numbers.set(job, fresh);
  return fresh;
}

async function activeDeck() {
  const activation = known.desk?.activations ?? null;
  if (activation === null) return null;
  if (known.deckOf === activation) return known.deck;
  const answer = await ask('/deck');
  known.deck = isGood(answer) && typeof answer.body.deck === 'string' ? answer.body.deck : null;
  known.deckOf = activation;
  return known.deck;
}

// ---- Kept current

async function poll() {
  try {
    await lookSoon();
  } finally {
    setTimeout(poll, POLL);
  }
}

// Asks what is new, and loads what is shown where it may differ.
async function look() {
  const answer = await ask('/desk');
  if (!isGood(answer)) throw new Gone('/desk');
  const isNew = answer.text !== known.text || known.gone;
  const news = isNew ? await newsSince(known.gone ? null : known.desk, answer.body) : null;
  known.desk = answer.body;
  markBack();
  if (!isNew) return;
  if (known.gone) known.deckOf = null;
  if (news.freed) for (const kept of known.volumes.values()) kept.row = null;
  known.isSame = !news.changed;
  try {
    if (news.changed || VIEWS[known.place.view].showsAnswers) await loadView();
  } finally {
    known.isSame = false;
  }
  known.gone = false;
  known.text = answer.text;
}

const CHANGING = new Set(['A00', 'A02', 'A03', 'A04', 'A05', 'A08', 'A09']);
const FREEING = new Set(['A03', 'A04', 'A09']);

// Whether the entries since the last look may have changed anything, and whether any may have freed tracks.
async function newsSince(before, now) {
  const last = known.lastPlace;
  const answer = await ask('/answers');
  const entries = isGood(answer) ? answersIn(answer) : [];
  known.lastPlace = entries[0]?.place ?? 0;
  const fresh = entries.filter((entry) => entry.place > last);
  const areAll = before !== null && now.entries > before.entries && fresh.length >= now.entries - before.entries;
  if (!areAll) return { changed: true, freed: true };
  return {
    changed: fresh.some((entry) => CHANGING.has(entry.code)),
    freed: fresh.some((entry) => FREEING.has(entry.code)),
  };
}

// The same; a desk that is gone is marked.
async function lookSoon() {
  try {
    await look();
  } catch (error) {
    if (!(error instanceof Gone)) throw error;
    markGone();
  }
}

function markGone() {
  known.gone = true;
  byId('gone').hidden = false;
  setText(byId('gone'), 'The desk is gone: what is shown is what it told last. '
    + 'It is asked again every two seconds.');
  setText(byId('standing'), 'The desk is gone');
  byId('standing').className = 'standing bad';
}

function markBack() {
  const { activations, entries, volumes } = known.desk;
  byId('gone').hidden = true;
  const active = activations === null ? 'nothing active' : `activation ${number(activations)}`;
  const counts = `${counted(volumes, 'volume')}, ${counted(entries, 'entry', 'entries')}`;
  setText(byId('standing'), `Connected: ${active}, ${counts}`);
  byId('standing').className = 'standing good';
}

function setText(element, text) {
  if (element.textContent !== text) element.textContent = text;
}

// Loads the view that is shown; a desk that is gone is marked, and asked again.
async function show() {
  try {
    await loadView();
  } catch (error) {
    if (!(error instanceof Gone)) throw error;
    markGone();
  }
}

async function loadView() {
  known.load += 1;
  await VIEWS[known.place.view].load(known.place.parts, known.load);
}

function isOld(load) {
  return load !== known.load;
}

// ---- Where the page is

function readPlace() {
  const [view, ...parts] = location.hash.slice(1).split('/').map(decode);
  return Object.hasOwn(VIEWS, view) ? { view, parts } : { view: 'pool', parts: [] };
}

function decode(text) {
  try {
    return decodeURIComponent(text);
  } catch {
    return text;
  }
}

function hashOf(...parts) {
  return `#${parts.map(segment).join('/')}`;
}

function goTo(hash) {
  if (location.hash === hash) show();
  else location.hash = hash;
}

function arrive() {
  const before = known.place.view;
  known.place = readPlace();
  if (known.place.view !== 'set') byId('set-back').href = location.hash || '#sets';
  const { tab, section } = VIEWS[known.place.view];
  for (const place of document.querySelectorAll('main > section')) place.hidden = place.id !== section;
  for (const anchor of document.querySelectorAll('nav a')) {
    if (anchor.dataset.view === tab) anchor.setAttribute('aria-current', 'page');
    else anchor.removeAttribute('aria-current');
  }
  if (before !== known.place.view) scrollTo(0, 0);
  show();
}

// ---- Pool

// The storage groups, and of the one that is opened its volumes.
async function loadPool([group = '', filter = '', page = '1'], load) {
  const asked = [ask('/groups')];
  if (group !== '' || filter !== '') asked.push(ask('/volumes'));
  const [groups, volumes] = await Promise.all(asked);
  if (isOld(load)) return;
  note('pool-note', isGood(groups) ? '' : sentenceOf(groups));
  const rows = list(groups.body?.groups);
  drawPool(rows, group, () => opened(list(volumes?.body?.volumes), group, filter, Number(page) || 1));
  await loadStrips(load);
}

// Opens the storage group of a volume, with that volume alone.
async function loadVolume([volser = ''], load) {
  const answer = await ask(`/volume/${segment(volser)}`);
  if (isOld(load)) return;
  if (isGood(answer)) {
    location.replace(hashOf('pool', answer.body.group, volser));
    return;
  }
  await loadPool([], load);
  note('pool-note', sentenceOf(answer));
}

function drawPool(rows, group, volumes) {
  setText(byId('pool-total'), poolTotal(rows));
  const none = known.desk?.activations === null
    ? 'Nothing is active. Activate a deck in the view Deck.' : 'The active deck has no storage group.';
  const shown = rows.map((row) => groupPanel(row, row.group === group, volumes));
  replace(byId('pool-groups'), shown.length > 0 ? shown : empty(none));
}

function poolTotal(rows) {
  const capacity = sum(rows, 'capacity');
  const used = capacity - sum(rows, 'free');
  return `${counted(rows.length, 'storage group')}, ${counted(sum(rows, 'volumes'), 'volume')}, `
    + `${counted(capacity, 'track')}, ${percent(used, capacity)} used`;
}

function sum(rows, field) {
  return rows.reduce((total, row) => total + row[field], 0);
}

function groupPanel(row, isOpen, volumes) {
  const used = row.capacity - row.free;
  const hash = isOpen ? '#pool' : hashOf('pool', row.group);
  const facts = [
    make('span', { class: 'name' }, row.group),
    row.status ? statusChip(row.status) : null,
    row.overflow === true ? make('span', { class: 'chip' }, 'overflow') : null,
    make('span', { class: 'fact share' }, `${percent(used, row.capacity)} used`),
    make('span', { class: 'fact' }, `${number(row.free)} of ${counted(row.capacity, 'track')} free`),
    make('span', { class: 'fact' }, counted(row.volumes, 'volume')),
    make('span', { class: 'fact muted' }, thresholdWords(row)),
  ];
  const head = make('button', {
    'type': 'button', 'class': 'group-head', 'aria-expanded': String(isOpen),
    'data-key': `group ${row.group}`, 'click': () => goTo(hash),
  }, make('span', { class: 'facts' }, facts), groupBar(row, used));
  return make('article', { 'class': 'panel group', 'data-group': row.group }, head, isOpen ? volumes() : null);
}

function thresholdWords(row) {
  if (!Number.isFinite(row.high)) return 'this desk shows no thresholds here';
  return `thresholds: high ${row.high} %, low ${row.low} %`;
}

// The tracks of a storage group to scale: used ones filled, free ones empty, the thresholds as marks.
function groupBar(row, used) {
  const share = row.capacity > 0 ? (1000 * used) / row.capacity : 0;
  const isPast = Number.isFinite(row.high) && used * 100 > row.high * row.capacity;
  const words = `${number(used)} of ${number(row.capacity)} tracks used, ${thresholdWords(row)}`;
  return shape('svg', { 'class': 'bar-of-group', 'viewBox': '0 0 1000 20', 'preserveAspectRatio': 'none',
    'role': 'img', 'aria-label': words },
  shape('rect', { class: 'bar-free', x: 0, y: 3, width: 1000, height: 14 }),
  shape('rect', { class: isPast ? 'bar-used past' : 'bar-used', x: 0, y: 3, width: share, height: 14 }),
  Number.isFinite(row.low) ? mark('mark low', row.low, 11) : null,
  Number.isFinite(row.high) ? mark('mark high', row.high, 0) : null);
}

function mark(name, at, top) {
  const x = Math.min(997, Math.max(0, at * 10 - 1.5));
  return shape('rect', { class: name, x, y: top, width: 3, height: 20 - top });
}

function statusChip(status) {
  const words = status in STATUS_WORDS ? `${status}: ${STATUS_WORDS[status]}` : status;
  return make('span', { class: `chip status ${status.toLowerCase()}` },
    make('span', { 'class': 'swatch', 'aria-hidden': 'true' }), words);
}

// The volumes of an opened storage group that fit the filter, a page of them.
function opened(volumes, group, filter, page) {
  const all = volumes.filter((row) => row.group === group);
  const fitting = all.filter((row) => row.volser.startsWith(filter));
  const pages = Math.max(1, Math.ceil(fitting.length / VOLUMES_SHOWN));
  const at = Math.min(Math.max(1, page), pages);
  const shown = fitting.slice((at - 1) * VOLUMES_SHOWN, at * VOLUMES_SHOWN);
  const panels = shown.map(volumePanel);
  return make('div', { class: 'volumes' },
    volumesBar(group, filter, all.length, fitting.length, at, pages),
    panels.length > 0 ? panels : empty('No volume of this storage group fits.'));
}

function volumesBar(group, filter, all, fitting, at, pages) {
  const field = make('input', { 'size': 8, 'maxlength': 6, 'value': filter, 'spellcheck': 'false',
    'autocomplete': 'off', 'aria-label': 'Volume serial begins with', 'data-key': 'filter' });
  const submit = (event) => {
    event.preventDefault();
    goTo(hashOf('pool', group, capitals(field.value)));
  };
  const count = fitting === all ? counted(all, 'volume') : `${number(fitting)} of ${counted(all, 'volume')}`;
  const from = (at - 1) * VOLUMES_SHOWN + 1;
  const to = Math.min(fitting, at * VOLUMES_SHOWN);
  const label = make('label', {}, 'Serial begins with ', field);
  return make('div', { class: 'row' },
    make('form', { class: 'find', submit }, label, make('button', {}, 'Filter')),
    make('span', { class: 'muted' }, fitting > 0 ? `${count}, ${number(from)} to ${number(to)} shown` : count),
    pages > 1 ? pager(at, pages, (next) => hashOf('pool', group, filter, String(next))) : null,
    legend());
}

function pager(at, pages, hash) {
  const button = (text, next, isOff) => make('button', { 'type': 'button', 'disabled': isOff,
    'data-key': `pager ${text}`, 'click': () => goTo(hash(next)) }, text);
  return make('span', { class: 'pager' }, button('Previous', at - 1, at <= 1),
    make('span', {}, `page ${number(at)} of ${number(pages)}`), button('Next', at + 1, at >= pages));
}

function legend() {
  const item = (name, text) => make('span', { class: 'legend' },
    make('span', { 'class': `swatch ${name}`, 'aria-hidden': 'true' }), text);
  return make('span', { class: 'legends' }, item('used', 'extents'), item('free', 'gaps'),
    item('quiall', 'gaps where quiesced'), item('disall', 'gaps where disabled'),
    make('span', { class: 'legend' }, 'point at an extent, or take the arrow keys'));
}

function volumePanel(row) {
  const used = row.capacity - row.free;
  const facts = make('p', { class: 'facts' },
    make('span', { class: 'name' }, row.volser), statusChip(row.status),
    make('span', { class: 'fact' }, `${percent(used, row.capacity)} used`),
    make('span', { class: 'fact' }, `${number(row.free)} of ${counted(row.capacity, 'track')} free`),
    make('span', { class: 'fact' }, counted(countOf(row.extents), 'extent')),
    make('span', { class: 'fact muted longest' }));
  const place = make('div', { 'class': 'strips', 'data-strips': row.volser, 'data-row': JSON.stringify(row),
    'data-status': row.status });
  const panel = make('section', {
    'class': 'volume', 'data-volume': row.volser, 'aria-label': `Volume ${row.volser}`,
  }, facts, place);
  const kept = known.volumes.get(row.volser);
  if (kept) fillStrips(place, kept.answer);
  return panel;
}

function countOf(extents) {
  return Array.isArray(extents) ? extents.length : extents;
}

// Asks for the extents and gaps of the volumes that are shown and may differ, and draws all.
async function loadStrips(load) {
  const places = [...document.querySelectorAll('#pool-groups [data-strips]')];
  keepFew(known.volumes, new Set(places.map((place) => place.dataset.strips)));
  places.forEach(drawStrips);
  await eachOf(places.filter(isStale), async (place) => {
    if (isOld(load)) return;
    const { strips, row } = place.dataset;
    const answer = await askVolume(strips);
    if (isOld(load)) return;
    known.volumes.set(strips, { answer, row });
    fillStrips(place, answer);
    drawStrips(place);
  });
}

function isStale(place) {
  return known.volumes.get(place.dataset.strips)?.row !== place.dataset.row;
}

function keepFew(map, wanted) {
  for (const key of map.keys()) if (!wanted.has(key)) map.delete(key);
}

// ---- Strips: the extents and gaps of a volume to scale

function fillStrips(place, answer) {
  if (!isGood(answer)) {
    place.replaceChildren(empty(sentenceOf(answer)));
    return;
  }
  if (!Array.isArray(answer.body.extents)) {
    place.replaceChildren(empty('This desk does not show where the extents of a volume lie.'));
    return;
  }
  const parts = partsOf(answer.body);
  replace(place, parts.map((part) => stripOf(place, answer.body, part, parts.length > 1)));
  const longest = place.parentElement?.querySelector('.longest');
  if (longest) setText(longest, longestGap(parts));
}

// The parts of a volume: its track-managed one, and behind it the cylinder-managed one, where it has that.
function partsOf(volume) {
  const pieces = piecesOf(volume);
  const end = Math.min(volume.capacity, TRACK_MANAGED);
  const first = { name: 'track-managed', start: 0, end, pieces: inside(pieces, 0, end) };
  if (volume.capacity <= TRACK_MANAGED) return [first];
  const rest = inside(pieces, end, volume.capacity);
  return [first, { name: 'cylinder-managed', start: end, end: volume.capacity, pieces: rest }];
}

function inside(pieces, start, end) {
  const cut = (piece) => {
    const from = Math.max(piece.start, start);
    return { ...piece, start: from, tracks: Math.min(piece.start + piece.tracks, end) - from };
  };
  return pieces.map(cut).filter((piece) => piece.tracks > 0);
}

// Extents and gaps in the order of their tracks; where the desk tells no gaps they are what lies between.
function piecesOf(volume) {
  const extents = volume.extents.map(({ dsn, start, tracks }) => ({ dsn, start, tracks }));
  extents.sort((one, other) => one.start - other.start);
  const gaps = Array.isArray(volume.gaps)
    ? volume.gaps.map(({ start, tracks }) => ({ dsn: null, start, tracks })) : between(extents, volume.capacity);
  return [...extents, ...gaps].sort((one, other) => one.start - other.start);
}

function between(extents, capacity) {
  const gaps = [];
  let from = 0;
  for (const { start, tracks } of extents) {
    if (start > from) gaps.push({ dsn: null, start: from, tracks: start - from });
    from = start + tracks;
  }
  if (capacity > from) gaps.push({ dsn: null, start: from, tracks: capacity - from });
  return gaps;
}

function longestGap(parts) {
  const gaps = parts.flatMap((part) => part.pieces).filter((piece) => piece.dsn === null);
  const longest = gaps.reduce((most, gap) => Math.max(most, gap.tracks), 0);
  return `${counted(gaps.length, 'gap')}, the longest ${counted(longest, 'track')}`;
}

// A strip with its caption and the line that names the piece which is pointed at.
function stripOf(place, volume, part, isOneOfTwo) {
  const key = `${volume.volser} ${part.name}`;
  const canvas = make('canvas', {
    'class': 'strip', 'tabindex': '0', 'role': 'slider', 'data-key': `strip ${key}`,
    'aria-label': `Extents and gaps of volume ${volume.volser}, ${part.name}`,
    'aria-valuemin': 1, 'aria-valuemax': Math.max(1, part.pieces.length),
  });
  const told = make('p', { class: 'told' });
  const strip = { key, canvas, told, part, volume, status: place.dataset.status, marked: place.dataset.marked };
  listen(strip);
  canvas.strip = strip;
  const words = `${part.name}, tracks ${number(part.start)} to ${number(part.end - 1)}`;
  const caption = isOneOfTwo ? make('p', { class: 'caption' }, words) : null;
  tell(strip);
  return make('div', { class: 'strip-of-part' }, caption, canvas, told);
}

function listen(strip) {
  const { canvas, part } = strip;
  canvas.addEventListener('pointermove', (event) => pointAt(strip, pieceUnder(strip, event)));
  canvas.addEventListener('pointerleave', () => { if (document.activeElement !== canvas) pointAt(strip, null); });
  canvas.addEventListener('focus', () => pointAt(strip, pointedAt(strip) ?? 0));
  canvas.addEventListener('blur', () => { if (!known.isReplacing) pointAt(strip, null); });
  canvas.addEventListener('click', (event) => openPiece(strip, pieceUnder(strip, event)));
  canvas.addEventListener('keydown', (event) => {
    const at = pointedAt(strip) ?? 0;
    const last = part.pieces.length - 1;
    const next = { ArrowRight: at + 1, ArrowLeft: at - 1, Home: 0, End: last }[event.key];
    if (event.key === 'Enter') openPiece(strip, at);
    if (next === undefined) return;
    event.preventDefault();
    pointAt(strip, Math.min(Math.max(0, next), last));
  });
}

function openPiece(strip, at) {
  const piece = strip.part.pieces[at];
  if (piece?.dsn) goTo(hashOf('set', piece.dsn));
}

function pieceUnder(strip, event) {
  const box = strip.canvas.getBoundingClientRect();
  const share = (event.clientX - box.left) / Math.max(1, box.width);
  const track = strip.part.start + Math.floor(share * (strip.part.end - strip.part.start));
  return pieceAt(strip.part.pieces, track);
}

// The last piece that begins at the track or before it.
function pieceAt(pieces, track) {
  let low = 0;
  let high = pieces.length - 1;
  while (low < high) {
    const middle = Math.ceil((low + high) / 2);
    if (pieces[middle].start <= track) low = middle;
    else high = middle - 1;
  }
  return pieces.length > 0 ? low : null;
}

function pointAt(strip, at) {
  const piece = at === null ? undefined : strip.part.pieces[at];
  if (piece === undefined) known.focus.delete(strip.key);
  else known.focus.set(strip.key, piece.start);
  tell(strip);
  paint(strip);
}

// The piece that is pointed at: the one that holds the track at which the pointed one began.
function pointedAt(strip) {
  const track = known.focus.get(strip.key);
  return track === undefined ? undefined : pieceAt(strip.part.pieces, track) ?? undefined;
}

function tell(strip) {
  const at = pointedAt(strip);
  const piece = at === undefined ? undefined : strip.part.pieces[at];
  const words = piece ? pieceWords(piece, at, strip.part.pieces.length) : '';
  strip.canvas.setAttribute('aria-valuenow', (at ?? 0) + 1);
  strip.canvas.setAttribute('aria-valuetext', words || 'nothing pointed at');
  if (!piece) setText(strip.told, '');
  else if (piece.dsn === null) setText(strip.told, words);
  else strip.told.replaceChildren(link(hashOf('set', piece.dsn), piece.dsn), words.slice(piece.dsn.length));
}

function pieceWords({ dsn, start, tracks }, at, all) {
  return `${dsn ?? 'gap'}: tracks ${number(start)} to ${number(start + tracks - 1)}, `
    + `${counted(tracks, 'track')} (${number(at + 1)} of ${number(all)})`;
}

function drawStrips(place) {
  for (const canvas of place.querySelectorAll('canvas')) paint(canvas.strip);
}

// Draws a strip: gaps bear the pattern of the status, extents are filled, the pointed one is framed.
function paint(strip) {
  const { canvas, part } = strip;
  const scale = devicePixelRatio || 1;
  const width = Math.round(canvas.clientWidth * scale);
  const height = Math.round(canvas.clientHeight * scale);
  if (width === 0 || height === 0) return;
  if (canvas.width !== width) canvas.width = width;
  if (canvas.height !== height) canvas.height = height;
  const brush = canvas.getContext('2d');
  const colors = colorsNow();
  brush.fillStyle = colors.free;
  brush.fillRect(0, 0, width, height);
  paintPattern(brush, strip.status, width, height, scale, colors.pattern);
  const factor = width / (part.end - part.start);
  const fill = (counts, color) => paintCoverage(brush, coverage(part, factor, width, counts), height, color);
  fill((piece) => piece.dsn !== null, colors.used);
  if (strip.marked) fill((piece) => piece.dsn === strip.marked, colors.marked);
  paintEdges(brush, part, factor, height, scale, colors.free);
  const at = pointedAt(strip);
  if (at !== undefined && part.pieces[at]) frame(brush, part, part.pieces[at], factor, height, scale, colors.ink);
}

function colorsNow() {
  if (known.colors) return known.colors;
  const style = getComputedStyle(document.documentElement);
  const names = ['free', 'used', 'marked', 'pattern', 'ink'];
  known.colors = Object.fromEntries(names.map((name) => [name, style.getPropertyValue(`--${name}`).trim()]));
  return known.colors;
}

// Which share of each column of points the pieces that count cover.
function coverage(part, factor, width, counts) {
  const shares = new Float32Array(width + 1);
  for (const piece of part.pieces) {
    if (!counts(piece)) continue;
    const from = (piece.start - part.start) * factor;
    cover(shares, from, from + piece.tracks * factor, width);
  }
  return shares;
}

function cover(shares, from, to, width) {
  const first = Math.min(width - 1, Math.floor(from));
  const last = Math.min(width - 1, Math.floor(to));
  if (first === last) {
    shares[first] += to - from;
    return;
  }
  shares[first] += first + 1 - from;
  for (let at = first + 1; at < last; at += 1) shares[at] += 1;
  shares[last] += to - last;
}

const SHADES = 6;

// Fills the columns by their shares, in a few shades; what is there at all is seen.
function paintCoverage(brush, shares, height, color) {
  brush.fillStyle = color;
  let from = 0;
  for (let at = 1; at < shares.length; at += 1) {
    const shade = shadeOf(shares[from]);
    if (at < shares.length - 1 && shadeOf(shares[at]) === shade) continue;
    if (shade > 0) {
      brush.globalAlpha = Math.max(0.35, shade / SHADES);
      brush.fillRect(from, 0, at - from, height);
    }
    from = at;
  }
  brush.globalAlpha = 1;
}

function shadeOf(share) {
  return share <= 0 ? 0 : Math.min(SHADES, Math.max(1, Math.round(share * SHADES)));
}

// A thin line at the end of each extent that is wide enough to be told from its neighbour.
function paintEdges(brush, part, factor, height, scale, color) {
  brush.fillStyle = color;
  for (const piece of part.pieces) {
    if (piece.dsn === null || piece.tracks * factor < 4 * scale) continue;
    const end = (piece.start + piece.tracks - part.start) * factor;
    brush.fillRect(Math.round(end) - 1, 0, 1, height);
  }
}

function paintPattern(brush, status, width, height, scale, color) {
  brush.strokeStyle = color;
  brush.fillStyle = color;
  brush.lineWidth = scale;
  if (['QUIALL', 'QUINEW'].includes(status)) paintDots(brush, width, height, 6 * scale, scale);
  if (['DISALL', 'DISNEW', 'NOTCON'].includes(status)) paintLines(brush, width, height, 7 * scale);
}

function paintDots(brush, width, height, step, scale) {
  for (let x = step / 2; x < width; x += step) {
    for (let y = step / 2; y < height; y += step) brush.fillRect(x, y, 1.5 * scale, 1.5 * scale);
  }
}

function paintLines(brush, width, height, step) {
  brush.beginPath();
  for (let x = -height; x < width; x += step) {
    brush.moveTo(x, height);
    brush.lineTo(x + height, 0);
  }
  brush.stroke();
}

function frame(brush, part, piece, factor, height, scale, color) {
  const from = (piece.start - part.start) * factor;
  const wide = Math.max(3 * scale, piece.tracks * factor);
  brush.strokeStyle = color;
  brush.lineWidth = 2 * scale;
  brush.strokeRect(from, scale, wide, height - 2 * scale);
}

function paintAll() {
  for (const canvas of document.querySelectorAll('section:not([hidden]) canvas')) paint(canvas.strip);
}

// ---- Data sets

const SET_COLUMNS = [
  { title: 'Name', class: 'name' }, { title: 'Data class' }, { title: 'Storage class' },
  { title: 'Management class' }, { title: 'Storage group' }, { title: 'Day', class: 'figure' },
  { title: 'Retention', class: 'figure' }, { title: 'Tracks', class: 'figure' },
  { title: 'Used', class: 'figure' }, { title: 'Extents', class: 'figure' }, { title: 'Volumes', class: 'figure' },
];

async function loadSets([mask = '', , after = ''], load) {
  const field = byId('sets-mask');
  if (document.activeElement !== field) field.value = mask;
  const answer = await ask(setsPath(mask, after));
  if (isOld(load)) return;
  note('sets-note', isGood(answer) ? '' : sentenceOf(answer));
  replace(byId('sets-list'), isGood(answer) ? setsPage(answer.body, mask, after) : []);
}

function hashOfMask(mask) {
  return mask === '' ? '#sets' : hashOf('sets', mask);
}

function setsPath(mask, after) {
  if (mask === '' && after === '') return '/sets';
  const front = `/sets/${segment(mask || '**')}`;
  return after === '' ? front : `${front}/after/${segment(after)}`;
}

function setsPage({ sets, after }, mask, begins) {
  const rows = list(sets).map((set) => make('tr', {}, cells(SET_COLUMNS, setValues(set))));
  const where = begins === '' ? '' : ` behind ${begins}`;
  const words = rows.length > 0 ? `${counted(rows.length, 'data set')} shown${where}` : '';
  const first = make('button', { 'type': 'button', 'disabled': begins === '', 'data-key': 'first',
    'click': () => goTo(hashOfMask(mask)) }, 'First');
  const next = make('button', { 'type': 'button', 'disabled': !after, 'data-key': 'next',
    'click': () => goTo(hashOf('sets', mask, 'after', after)) }, 'Next');
  const none = after ? 'None of the data sets looked at fits; go on with Next.' : 'No data set fits.';
  const pages = make('span', { class: 'pager' }, first, next);
  return [
    make('div', { class: 'row' }, make('span', { class: 'muted' }, words), pages),
    rows.length > 0 ? table('sets stacked', SET_COLUMNS, rows) : empty(none),
  ];
}

function setValues(set) {
  const volumes = new Set(set.extents.map((extent) => extent.volser));
  return [
    link(hashOf('set', set.dsn), set.dsn, { 'data-key': `set ${set.dsn}` }),
    set.dataclas, set.storclas, set.mgmtclas, set.group, number(set.day),
    set.retpd === null ? null : number(set.retpd),
    number(sum(set.extents, 'tracks')), number(set.used), number(set.extents.length), number(volumes.size),
  ];
}

const EXTENT_COLUMNS = [
  { title: 'Extent', class: 'figure' }, { title: 'Volume' }, { title: 'First track', class: 'figure' },
  { title: 'Last track', class: 'figure' }, { title: 'Tracks', class: 'figure' },
];

async function loadSet([dsn = ''], load) {
  if (known.isSame && byId('set-title').textContent === dsn && byId('set-history')) {
    const history = await ask('/answers');
    if (!isOld(load)) replace(byId('set-history'), historyOf(dsn, history));
    return;
  }
  setText(byId('set-title'), dsn);
  const [answer, history] = await Promise.all([ask(`/set/${segment(dsn)}`), ask('/answers')]);
  if (isOld(load)) return;
  note('set-note', isGood(answer) ? '' : sentenceOf(answer));
  const detail = isGood(answer) ? setDetail(answer.body) : [];
  replace(byId('set-detail'), detail, make('div', { id: 'set-history' }, historyOf(dsn, history)));
  await loadSetStrips(load);
}

// The strips of a data set's volumes need their tracks and statuses, which the volume tells.
async function loadSetStrips(load) {
  for (const place of document.querySelectorAll('#set-detail [data-strips]')) {
    const answer = await askVolume(place.dataset.strips);
    if (isOld(load)) return;
    place.dataset.status = answer.body?.status ?? '';
    fillStrips(place, answer);
    drawStrips(place);
  }
}

function setDetail(set) {
  const volumes = [...new Set(set.extents.map((extent) => extent.volser))];
  const rows = set.extents.map((extent, at) => make('tr', {}, cells(EXTENT_COLUMNS, [
    number(at + 1), link(hashOf('volume', extent.volser), extent.volser), number(extent.start),
    number(extent.start + extent.tracks - 1), number(extent.tracks),
  ])));
  const some = `The first ${STRIPS_OF_A_SET} of ${counted(volumes.length, 'volume')} are drawn.`;
  return [
    make('div', { class: 'panel' }, factList(setFacts(set))),
    make('h3', {}, 'Extents'), table('extents', EXTENT_COLUMNS, rows),
    volumes.length > STRIPS_OF_A_SET ? make('p', { class: 'hint' }, some) : null,
    volumes.slice(0, STRIPS_OF_A_SET).map((volser) => setStrips(volser, set.dsn)),
  ];
}

function setStrips(volser, dsn) {
  return make('section', { 'class': 'volume', 'aria-label': `Volume ${volser}` },
    make('p', { class: 'facts' }, link(hashOf('volume', volser), volser, { class: 'name' })),
    make('div', { 'class': 'strips', 'data-strips': volser, 'data-marked': dsn }));
}

function setFacts(set) {
  return [
    ['Data class', set.dataclas], ['Storage class', set.storclas], ['Management class', set.mgmtclas],
    ['Storage group', link(hashOf('pool', set.group), set.group)],
    ['Day of its allocation', number(set.day)],
    ['Retention period', set.retpd === null ? null : counted(set.retpd, 'day')],
    ['Granted', counted(sum(set.extents, 'tracks'), 'track')], ['Used', counted(set.used, 'track')],
    ['Asked in', set.unit], ['Secondary quantity', counted(set.secondary, 'track')],
    ['Volume count', number(set.volumes)], ['EATTR', set.eattr],
  ];
}

function factList(facts) {
  return make('dl', { class: 'fact-list' },
    facts.map(([name, value]) => make('div', {}, make('dt', {}, name), make('dd', {}, value ?? 'none'))));
}

function historyOf(dsn, answer) {
  const title = make('h3', {}, 'Answers');
  if (!isGood(answer)) return [title, empty(answersSentence(answer))];
  const shown = answersIn(answer).filter((entry) => OF_DATA_SETS.has(entry.asked) && entry.name === dsn);
  const none = 'None of the last 200 entries of the journal is of this data set.';
  return [title, shown.length > 0 ? answersTable(shown) : empty(none)];
}

// ---- Try a request

function makeFields() {
  byId('try-fields').append(...FIELDS.map(fieldOf));
  byId('try-more').append(...MORE_FIELDS.map(fieldOf));
}

function fieldOf({ name, label, size, value = '', choices, wide, hint }) {
  const field = choices ? choiceOf(name, choices) : make('input', {
    name, value, maxlength: size, size: Math.min(size, 20), spellcheck: 'false', placeholder: hint,
  });
  const isWide = wide || size > 10;
  return make('label', { class: isWide ? 'field wide' : 'field' }, make('span', {}, label), field);
}

function choiceOf(name, choices) {
  return make('select', { name }, choices.map((choice) => make('option', {}, choice)));
}

function fieldValue(name) {
  return capitals(byId('try-form').elements[name].value);
}

// The body of an ALLOC, as docs/manual/http.md has it.
function operands() {
  const body = {};
  const primary = fieldValue('PRIMARY');
  const secondary = fieldValue('SECONDARY');
  if (primary !== '') {
    const quantity = secondary === '' ? primary : `(${primary},${secondary})`;
    body.SPACE = `(${fieldValue('UNITS')},${quantity})`;
  }
  for (const { name } of MORE_FIELDS) if (fieldValue(name) !== '') body[name] = fieldValue(name);
  return JSON.stringify(body);
}

async function loadTry() {
  if (byId('try-result').childElementCount > 0) return;
  replace(byId('try-result'), make('p', { class: 'hint' }, 'The answer stands here.'));
}

// Does what a form asks; a desk that is gone is told where the answer would stand.
async function answered(place, work) {
  try {
    replace(byId(place), await work());
  } catch (error) {
    if (!(error instanceof Gone)) throw error;
    markGone();
    replace(byId(place), make('div', { class: 'panel bad' }, make('p', {}, 'The desk is gone, and gave no answer. '
      + 'Ask again when it is back: what it has answered already acts no second time under the same number.')));
  }
}

async function classify() {
  const target = `${segment(fieldValue('JOB'))}/${segment(fieldValue('DSN'))}`;
  replace(byId('try-path'));
  await answered('try-result', async () => {
    const answer = await post(`/classify/${target}`, operands());
    if (!isGood(answer)) return refusal(answer, 'This desk does not classify requests.');
    return classification(answer.body);
  });
  await answered('try-path', async () => pathPart(await post(`/explain/${target}`, operands())));
}

// A number that the page gave is of the request as it stood: another request gets another one.
function forgetNumber(event) {
  const field = byId('try-form').elements.NUMBER;
  if (event.target !== field && field.dataset.given) field.value = '';
  delete field.dataset.given;
}

function refusal(answer, missing) {
  const words = isMissing(answer) ? missing : `The desk refused this: ${sentenceOf(answer)}.`;
  return make('div', { class: 'panel bad' }, make('p', {}, words));
}

function classification(body) {
  const lines = list(body.lines);
  const outcome = String(body.outcome ?? '');
  const [verb, ...words] = outcome.split(' ');
  const tiles = verb === 'CLASSES' ? classTiles(words) : [make('p', {}, outcomeSentence(verb, words))];
  return make('div', { class: 'panel' }, make('h3', {}, 'Classification'),
    make('p', { class: 'code-line' }, outcome), tiles, linesPart(lines));
}

function classTiles([dataclas, storclas, mgmtclas, groups]) {
  const tile = (name, value) => make('div', { class: 'tile' },
    make('dt', {}, name), make('dd', {}, value === '-' || value === undefined ? 'none' : value));
  return [make('dl', { class: 'tiles' }, tile('Data class', dataclas), tile('Storage class', storclas),
    tile('Management class', mgmtclas), tile('Storage groups', (groups ?? '-').split(',').join(', ')))];
}

function outcomeSentence(verb, words) {
  if (verb === 'EXIT') return `The routine ${words[0]} ended with the code ${words[1]}.`;
  if (verb === 'UNKNOWN') return `The active configuration has no ${words[0]} named ${words[1]}.`;
  if (verb === 'UNMANAGED') return 'There is no storage class: the data set would not be managed.';
  if (verb === 'NO') return 'The routines list no storage group.';
  return 'This outcome is not known to the page.';
}

function linesPart(lines) {
  if (lines.length === 0) return make('p', { class: 'muted' }, 'The routines wrote no line.');
  return [make('h4', {}, 'Lines'), linesOf(lines)];
}

function linesOf(lines) {
  return make('pre', { class: 'lines' }, lines.map((line) => line.trim()).join(LINE_END));
}

// Allocates, behind a question; the number stays until an answer has come.
async function allocate() {
  const job = fieldValue('JOB');
  const dsn = fieldValue('DSN');
  const field = byId('try-form').elements.NUMBER;
  if (field.value.trim() === '') {
    field.value = String(freshNumber(job));
    field.dataset.given = 'by the page';
  }
  const isSure = await question('Allocate this data set?', [
    make('p', {}, `${job} ${field.value} ALLOC ${dsn}`), make('pre', { class: 'lines' }, operands()),
    make('p', { class: 'hint' }, 'The desk answers this once under its number, and enters it in its journal.'),
  ], 'Allocate');
  if (!isSure) return;
  replace(byId('try-path'));
  await answered('try-result', async () => {
    const asking = `/job/${segment(job)}/${segment(field.value.trim())}`;
    const answer = await post(`${asking}/alloc/${segment(dsn)}`, operands());
    if (!isGood(answer)) return refusal(answer, sentenceOf(answer));
    if (!isInDoubt(answer)) field.value = '';
    return replyPanel(answer.body, dsn);
  });
  await lookSoon();
}

function replyPanel(body, dsn) {
  const granted = body.code === 'A00';
  const isGoodCode = String(body.code).startsWith('A');
  return make('div', { 'class': isGoodCode ? 'panel good' : 'panel bad', 'data-code': body.code },
    make('p', { class: 'code-line' }, list(body.lines)[0] ?? body.code),
    make('p', {}, `${sentence(MEANINGS[body.code] ?? 'this code is not known to the page')} `
      + `It stands at place ${number(body.place)} of the journal.`),
    list(body.lines).length > 1 ? linesOf(body.lines.slice(1)) : null,
    granted ? make('p', {}, link(hashOf('set', dsn), `Open ${dsn}`)) : null);
}

function sentence(words) {
  return `${words.charAt(0).toUpperCase()}${words.slice(1)}.`;
}

// ---- The path through the routines

async function pathPart(answer) {
  const title = make('h3', {}, 'Path through the routines');
  if (!isGood(answer)) {
    const missing = 'This desk does not show the path through the routines; '
      + 'smsc explain tells it of a deck and a script.';
    return [title, empty(isMissing(answer) ? missing : sentenceOf(answer))];
  }
  await look();
  const text = await activeDeck();
  const deck = text === null ? null : readDeck(text);
  return [title, ...stories(String(answer.body.text ?? '').split(LINE_END)).map((story) => storyPanel(story, deck))];
}

// The stories of the routines: where each begins and ends, and what happened in it.
function stories(lines) {
  const told = [];
  for (const line of lines) {
    const [kind, word, ...values] = line.trim().split(' ');
    const last = told[told.length - 1];
    if (kind in KINDS && word === 'BEGIN') told.push({ kind, begin: valuesWords(values), end: '', events: [] });
    else if (last && kind === last.kind && last.end === '') last.end = endWords(word, values);
    else if (last && last.end === '') last.events.push(eventOf(line.trim()));
  }
  return told;
}

function endWords(word, values) {
  return word === 'EXIT' ? `by EXIT with code ${values[0]}: ${valuesWords(values.slice(1))}` : valuesWords(values);
}

function valuesWords([dataclas, storclas, mgmtclas, ...groups]) {
  const value = (text) => (text === '-' || text === undefined ? 'none' : text);
  return `data class ${value(dataclas)}, storage class ${value(storclas)}, management class ${value(mgmtclas)}, `
    + `storage groups ${value(groups.join(', ') || '-')}`;
}

function eventOf(text) {
  const found = /^([0-9]+):([0-9]+) (.*)$/.exec(text);
  return found ? { line: Number(found[1]), column: Number(found[2]), text: found[3] } : { line: null, text };
}

function storyPanel(story, deck) {
  const source = deck?.entries.get(`routine.${KINDS[story.kind]}`)?.value;
  const body = typeof source === 'string' ? markedSource(source, story.events) : plainEvents(story.events);
  const words = (text) => make('p', { class: 'muted' }, text);
  return make('section', { 'class': 'panel story', 'data-story': story.kind }, make('h4', {}, story.kind),
    words(`Begins: ${story.begin}`), body, words(`Ends: ${story.end}`));
}

function plainEvents(events) {
  const placeOfEvent = ({ line, column }) => (line === null ? '' : `${line}:${column} `);
  return [make('p', { class: 'hint' }, 'This desk does not show the text of the active routines.'),
    linesOf(events.map((event) => `${placeOfEvent(event)}${event.text}`))];
}

// The text of a routine, with the statements that ran marked and what was compared and set beside them. Of lines
// that are far from any of these only their number is shown.
function markedSource(source, events) {
  const happened = placed(events);
  const lines = source.trimEnd().split(LINE_END);
  const rows = [];
  let left = 0;
  for (let line = 1; line <= lines.length + 1; line += 1) {
    const isNear = line <= lines.length && isBeside(happened, line);
    if (left > 0 && (isNear || line > lines.length)) rows.push(leftOut(left));
    left = isNear ? 0 : left + 1;
    if (isNear) rows.push(sourceLine(lines[line - 1], line, happened.get(line) ?? []));
  }
  return make('ol', { class: 'source' }, rows);
}

function isBeside(happened, line) {
  for (let at = line - LINES_BESIDE; at <= line + LINES_BESIDE; at += 1) if (happened.has(at)) return true;
  return false;
}

function leftOut(count) {
  return make('li', { class: 'left-out' }, `${counted(count, 'line')}, of which none ran`);
}

function sourceLine(text, line, events) {
  const notes = events.filter((event) => event.text.includes(' ')).map((event) => make('span', {}, event.text));
  const ran = events.length > 0;
  return make('li', { class: ran ? 'ran' : 'not', value: line },
    make('span', { 'class': 'sign', 'aria-label': ran ? 'ran' : 'did not run' }, ran ? '>' : ' '),
    make('code', {}, text || ' '),
    notes.length > 0 ? make('span', { class: 'happened' }, notes) : null);
}

// Events by line; one without a place stands at the line of the one before it.
function placed(events) {
  const lines = new Map();
  let last = 1;
  for (const event of events) {
    last = event.line ?? last;
    if (!lines.has(last)) lines.set(last, []);
    lines.get(last).push(event);
  }
  return lines;
}

// ---- Deck

async function loadDeck(parts, load) {
  const isShown = (await activeDeck()) !== null;
  if (isOld(load)) return;
  byId('deck-active').hidden = !isShown;
}

function deckText() {
  return byId('deck-text').value;
}

function setDeck(text) {
  byId('deck-text').value = text;
  numberLines();
}

// Numbers the lines of the deck beside it, with a sign at a fault.
function numberLines(fault = null) {
  const lines = deckText().split(LINE_END).length;
  const numbers = Array.from({ length: lines }, (_, at) => (at + 1 === fault ? `> ${at + 1}` : String(at + 1)));
  byId('deck-lines').textContent = numbers.join(LINE_END);
  followScroll();
}

function followScroll() {
  byId('deck-lines').scrollTop = byId('deck-text').scrollTop;
}

async function takeFile(file) {
  if (!file) return;
  setDeck(await file.text());
  await check();
}

const DECK_BYTES = 262144;

// What is said of a deck that is longer than a desk takes; null of another.
function tooLong(text) {
  const { length } = new TextEncoder().encode(text);
  if (length <= DECK_BYTES) return null;
  const words = `This deck has ${counted(length, 'byte')}; a desk takes at most ${number(DECK_BYTES)}.`;
  return make('div', { class: 'panel bad' }, make('p', {}, words));
}

async function check() {
  const text = deckText();
  await answered('deck-result', async () => {
    const long = tooLong(text);
    if (long) return long;
    const answer = await ask('/check', { method: 'POST', body: text });
    const missing = 'This desk does not check decks.';
    return [isGood(answer) ? checkParts(answer.body, text) : refusal(answer, missing), await difference(text)];
  });
}

function firstLine(body) {
  return list(body.lines)[0] ?? String(body.code);
}

// What the check answered, and where the deck's fault lies.
function checkParts(body, text) {
  const line = firstLine(body);
  const code = body.code;
  const fault = code === 'R21' ? faultOf(line, text) : null;
  numberLines(fault?.line ?? null);
  if (fault?.line) showLine(fault.line, text);
  const refused = `This deck would be refused: ${MEANINGS[code] ?? 'see the code'}.`;
  const words = code === 'A04' ? 'This deck would be active.' : refused;
  return [make('div', { 'class': code === 'A04' ? 'panel good' : 'panel bad', 'data-code': code },
    make('p', { class: 'code-line' }, line), make('p', {}, words),
    fault ? faultPart(fault, text) : null,
    code === 'R22' ? make('p', {}, link(hashOf('volume', line.split(' ').pop()), 'Show the volume')) : null)];
}

function faultPart(fault, text) {
  const where = fault.line ? `Line ${number(fault.line)}, column ${number(fault.column)}: ` : '';
  return [make('p', { class: 'fault', id: 'deck-fault' }, `${where}${fault.sentence}`),
    fault.line ? excerpt(text, fault) : null];
}

// The lines around a fault, the faulty one marked.
function excerpt(text, { line, column }) {
  const lines = text.split(LINE_END);
  const from = Math.max(1, line - LINES_AROUND);
  const to = Math.min(lines.length, line + LINES_AROUND);
  const rows = [];
  for (let at = from; at <= to; at += 1) {
    rows.push(make('li', { 'class': at === line ? 'at-fault' : '', 'value': at },
      make('code', {}, at === line ? splitAt(lines[at - 1], column) : lines[at - 1] || ' ')));
  }
  return make('ol', { class: 'excerpt' }, rows);
}

function splitAt(text, column) {
  if (!column || column > text.length) return [text, column ? make('mark', {}, ' ') : null];
  const behind = text.slice(column - 1);
  const word = /^(.[A-Za-z0-9_.#@$-]*)/.exec(behind)[0];
  return [text.slice(0, column - 1), make('mark', {}, word), behind.slice(word.length)];
}

// Scrolls the text to a line and selects it.
function showLine(line, text) {
  const lines = text.split(LINE_END);
  const start = lines.slice(0, line - 1).reduce((length, it) => length + it.length + 1, 0);
  const field = byId('deck-text');
  field.setSelectionRange(start, start + lines[line - 1].length);
  const height = field.scrollHeight / Math.max(1, lines.length);
  field.scrollTop = Math.max(0, (line - 8) * height);
  followScroll();
}

async function activate() {
  const text = deckText();
  const long = tooLong(text);
  if (long) {
    replace(byId('deck-result'), long);
    return;
  }
  const now = known.desk?.activations ?? null;
  if (known.unanswered?.text !== text) known.unanswered = { text, number: freshNumber('SMSADMIN') };
  const fresh = known.unanswered.number;
  const isSure = await question('Activate this deck?', [
    make('p', {}, `${counted(text.length, 'character')}, ${counted(text.split(LINE_END).length, 'line')}.`),
    make('p', {}, now === null ? 'Nothing is active now.' : `It takes the place of activation ${number(now)}.`),
    make('p', { class: 'hint' }, `SMSADMIN asks this under the number ${fresh}.`),
  ], 'Activate');
  if (!isSure) return;
  await answered('deck-result', async () => {
    const answer = await ask(`/admin/${fresh}/activate`, { method: 'POST', body: text });
    if (!isInDoubt(answer)) known.unanswered = null;
    if (!isGood(answer)) return refusal(answer, sentenceOf(answer));
    return activated(answer.body, text);
  });
  await lookSoon();
}

function activated(body, text) {
  const line = firstLine(body);
  const fault = body.code === 'R21' ? faultOf(line, text) : null;
  numberLines(fault?.line ?? null);
  return [replyPanel(body, ''), fault ? faultPart(fault, text) : null];
}

// ---- Where the fault of a deck lies

// The fault that a reply R21 tells, with its line and column where they are found.
function faultOf(line, text) {
  const [code, ...shown] = line.replace(/^R21 DECK /, '').split(' ');
  const place = shown.length > 0 ? ` (${shown.join(' ')})` : '';
  return { sentence: sentence(`${code}: ${FAULTS[code] ?? 'a fault'}${place}`), ...placeOf(code, shown, text) };
}

function placeOf(code, shown, text) {
  const deck = readDeck(text);
  if (code === 'K1') return deck.stop ?? {};
  if (code === 'K6') return volumePlace(deck, shown[0]);
  if (code === 'K7') return tokenPlace(deck, shown);
  if (code === 'K8') return quotedPlace(deck, shown);
  if (shown[0] === 'deck' || shown[0] === 'volume') return {};
  return keyPlace(deck, shown[0] ?? '');
}

// The place of the longest front of a path that the deck writes.
function keyPlace(deck, path) {
  for (let front = path; front !== ''; front = front.split('.').slice(0, -1).join('.')) {
    const found = deck.entries.get(front) ?? deck.tables.get(front);
    if (found) return { line: found.line, column: found.column };
  }
  return { line: 1, column: 1 };
}

// The second storage group in which a volume stands.
function volumePlace(deck, volser) {
  const places = [...deck.tables, ...deck.entries]
    .map(([path, place]) => ({ parts: path.split('.'), line: place.line, column: place.column }))
    .filter(({ parts }) => parts[0] === 'storgroup' && parts[2] === 'volume' && parts[3] === volser);
  const second = places.find((place) => place.parts[1] !== places[0].parts[1]) ?? places[0];
  return second ? { line: second.line, column: second.column } : {};
}

function routineOf(deck, kind) {
  return deck.entries.get(`routine.${KINDS[kind]}`) ?? null;
}

// The place of a token, or for the faults L1 to L4 of a byte, of a routine.
function tokenPlace(deck, [kind, fault, at]) {
  const routine = routineOf(deck, kind);
  if (!routine) return {};
  const isByte = String(fault).startsWith('L');
  const offset = isByte ? Number(at) : tokenStart(routine.value, Number(at));
  return within(routine, offset);
}

function quotedPlace(deck, [kind, name]) {
  const routine = routineOf(deck, kind);
  if (!routine) return {};
  const offset = routine.value.indexOf(`'${name}'`);
  return within(routine, Math.max(0, offset));
}

const COMMENT = '[/][*][^]*?[*][/]';
const SIGNS = '&&|[>^<]=|[&^][><]|[=><|(),]';
const TOKEN = new RegExp(`${COMMENT}|([&][A-Za-z0-9_]+|'[^']*'|[A-Za-z0-9#@$._%*-]+|${SIGNS})`, 'g');

// Where the n-th token of a routine begins, counted from 0; behind the last one its end.
function tokenStart(text, wanted) {
  let at = 0;
  for (const found of text.matchAll(TOKEN)) {
    if (found[1] === undefined) continue;
    if (at === wanted) return found.index;
    at += 1;
  }
  return text.length;
}

// The place in the deck of a byte of a value's text.
function within(entry, offset) {
  const front = entry.value.slice(0, offset).split(LINE_END);
  const line = entry.textLine + front.length - 1;
  return { line, column: front.length === 1 ? entry.textColumn + offset : front.pop().length + 1 };
}

// A deck's tables lie less deep.
const MOST_DEEP = 80;

// ---- Reading a deck: its tables and keys with their places, as far as it is TOML of a deck's form

function readDeck(text) {
  const deck = { entries: new Map(), tables: new Map(), stop: null };
  const reader = new DeckReader(text);
  try {
    reader.readInto(deck);
  } catch (stop) {
    if (!(stop instanceof Stop)) throw stop;
    deck.stop = reader.place();
  }
  return deck;
}

class Stop extends Error {}

// Where the lines of a text begin.
function startsOf(text) {
  const starts = [{ start: 0 }];
  for (let at = 0; at < text.length; at += 1) {
    if (text[at] === LINE_END) starts.push({ start: at + 1 });
  }
  return starts;
}

class DeckReader {
  constructor(text) {
    this.text = text.split(`${String.fromCharCode(13)}${LINE_END}`).join(LINE_END);
    this.at = 0;
    this.starts = startsOf(this.text);
  }

  place(at = this.at) {
    const line = pieceAt(this.starts, at);
    return { line: line + 1, column: at - this.starts[line].start + 1 };
  }

  readInto(deck) {
    let table = [];
    this.skip();
    while (this.at < this.text.length) {
      if (this.text[this.at] === '[') table = this.readTable(deck);
      else this.readEntry(deck, table);
      this.endLine();
      this.skip();
    }
  }

  readTable(deck) {
    const place = this.place();
    this.at += 1;
    const path = this.readKey();
    this.want(']');
    for (let length = 1; length <= path.length; length += 1) {
      const front = path.slice(0, length).join('.');
      if (!deck.tables.has(front)) deck.tables.set(front, place);
    }
    return path;
  }

  readEntry(deck, table) {
    const place = this.place();
    const path = [...table, ...this.readKey()];
    this.want('=');
    this.blanks();
    this.readValue(deck, path, place);
  }

  readKey() {
    const path = [];
    do {
      if (path.length > 0) this.at += 1;
      this.blanks();
      path.push(this.readKeyPart());
      this.blanks();
    } while (this.text[this.at] === '.');
    return path;
  }

  readKeyPart() {
    const sign = this.text[this.at];
    if (sign === QUOTE || sign === `'`) return this.readText(sign);
    const found = /^[A-Za-z0-9_-]+/.exec(this.text.slice(this.at, this.at + 200));
    if (!found) throw new Stop();
    this.at += found[0].length;
    return found[0];
  }

  readValue(deck, path, place) {
    const sign = this.text[this.at];
    if (sign === '{') return this.readInline(deck, path, place);
    if (sign === '[') return this.put(deck, path, place, this.readArray());
    if (sign !== QUOTE && sign !== `'`) return this.put(deck, path, place, this.readWord());
    const long = this.text.startsWith(sign.repeat(3), this.at);
    const start = this.textStart(sign, long);
    return this.put(deck, path, place, long ? this.readLong(sign) : this.readText(sign), start);
  }

  put(deck, path, place, value, start = place) {
    const name = path.join('.');
    if (deck.entries.has(name)) throw new Stop();
    deck.entries.set(name, { value, ...place, textLine: start.line, textColumn: start.column });
  }

  textStart(sign, long) {
    if (!long) return this.place(this.at + 1);
    return this.place(this.text[this.at + 3] === LINE_END ? this.at + 4 : this.at + 3);
  }

  readWord() {
    const found = /^[A-Za-z0-9_.:+-]+/.exec(this.text.slice(this.at, this.at + 200));
    if (!found) throw new Stop();
    this.at += found[0].length;
    if (found[0] === 'true' || found[0] === 'false') return found[0] === 'true';
    const digits = found[0].split('_').join('');
    if (!/^[+-]?[0-9]+$/.test(digits)) return found[0];
    return Number(digits);
  }

  readText(sign) {
    this.at += 1;
    let value = '';
    while (this.text[this.at] !== sign) {
      if (this.at >= this.text.length || this.text[this.at] === LINE_END) throw new Stop();
      value += this.readByte(sign);
    }
    this.at += 1;
    return value;
  }

  readLong(sign) {
    const close = sign.repeat(3);
    this.at += this.text[this.at + 3] === LINE_END ? 4 : 3;
    let value = '';
    while (!this.text.startsWith(close, this.at)) {
      if (this.at >= this.text.length) throw new Stop();
      value += this.readByte(sign);
    }
    this.at += 3;
    while (this.text[this.at] === sign) {
      value += sign;
      this.at += 1;
    }
    return value;
  }

  // One byte of a text; between double quotes a backslash and what stands behind it is one.
  readByte(sign) {
    const byte = this.text[this.at];
    this.at += 1;
    if (byte !== BACKSLASH || sign !== QUOTE) return byte;
    const next = this.text[this.at];
    this.at += 1;
    const simple = { n: 10, t: 9, r: 13, b: 8, f: 12, e: 27 }[next];
    if (simple !== undefined) return String.fromCharCode(simple);
    if (next === 'u' || next === 'U') return this.readCode(next === 'u' ? 4 : 8);
    if (next === LINE_END || next === ' ') return this.readBreak();
    return next ?? '';
  }

  readCode(length) {
    const digits = this.text.slice(this.at, this.at + length);
    if (!/^[0-9A-Fa-f]+$/.test(digits) || parseInt(digits, 16) > 1114111) throw new Stop();
    this.at += length;
    return String.fromCodePoint(parseInt(digits, 16));
  }

  readBreak() {
    while (this.at < this.text.length && this.text[this.at].trim() === '') this.at += 1;
    return '';
  }

  readInline(deck, path, place) {
    if (path.length > MOST_DEEP) throw new Stop();
    deck.tables.set(path.join('.'), place);
    this.at += 1;
    this.skip();
    while (this.text[this.at] !== '}') {
      if (this.at >= this.text.length) throw new Stop();
      this.readEntry(deck, path);
      this.skip();
      if (this.text[this.at] === ',') this.at += 1;
      this.skip();
    }
    this.at += 1;
  }

  // An array is passed over: a deck has none.
  readArray() {
    const start = this.at;
    let depth = 0;
    do {
      if (this.text[this.at] === '[') depth += 1;
      if (this.text[this.at] === ']') depth -= 1;
      this.at += 1;
      if (this.at > this.text.length) throw new Stop();
    } while (depth > 0);
    return this.text.slice(start, this.at);
  }

  want(sign) {
    this.blanks();
    if (this.text[this.at] !== sign) throw new Stop();
    this.at += 1;
  }

  blanks() {
    while (this.text[this.at] === ' ' || this.text[this.at] === String.fromCharCode(9)) this.at += 1;
  }

  comment() {
    if (this.text[this.at] !== '#') return;
    const end = this.text.indexOf(LINE_END, this.at);
    this.at = end < 0 ? this.text.length : end;
  }

  endLine() {
    this.blanks();
    this.comment();
    if (this.at < this.text.length && this.text[this.at] !== LINE_END) throw new Stop();
  }

  skip() {
    let before;
    do {
      before = this.at;
      this.blanks();
      this.comment();
      if (this.text[this.at] === LINE_END) this.at += 1;
    } while (this.at !== before);
  }
}

// ---- The difference between a deck and the active one

async function difference(text) {
  const title = make('h3', {}, 'Difference to the active deck');
  await look();
  if (known.desk.activations === null) return [title, empty('Nothing is active: all of it would be new.')];
  const deck = readDeck(text);
  const unread = `The deck can be read up to line ${number(deck.stop?.line)}: nothing is compared.`;
  if (deck.stop) return [title, empty(unread)];
  const active = await activeDeck();
  return [title, active === null ? await shownDifference(deck) : wholeDifference(readDeck(active), deck)];
}

function wholeDifference(active, deck) {
  return [differenceTable(describe(active, true), describe(deck, true)), routineChanges(active, deck)];
}

// The difference to what the pages of storage groups and volumes show.
async function shownDifference(deck) {
  const [groups, volumes] = await Promise.all([ask('/groups'), ask('/volumes')]);
  const parts = new Map();
  for (const { group } of list(groups.body?.groups)) parts.set(`storage group ${group}`, '');
  for (const { volser, group, capacity } of list(volumes.body?.volumes)) {
    parts.set(`volume ${volser}`, `${group}, ${number(capacity)} tracks`);
  }
  const hint = 'Storage groups and volumes with their tracks are compared. This desk does not show '
    + 'the active deck, so its classes, its routines and other attributes are not.';
  return [differenceTable(parts, describe(deck, false)), make('p', { class: 'hint' }, hint)];
}

const DEVICES = { '3390-3': 50085, '3390-9': 150255 };
const KIND_WORDS = {
  dataclass: 'data class',
  storclass: 'storage class',
  mgmtclass: 'management class',
  storgroup: 'storage group',
};

// What a deck has, by name: volumes with storage group and tracks; as a whole, all else with its attributes.
function describe(deck, isWhole) {
  const parts = new Map();
  for (const path of pathsOf(deck)) {
    const [kind, name, , volser] = path;
    if (volser) parts.set(`volume ${volser}`, volumeWords(deck, name, volser, isWhole));
    else if (isWhole) parts.set(`${KIND_WORDS[kind]} ${name}`, attributes(deck, path));
    else if (kind === 'storgroup') parts.set(`storage group ${name}`, '');
  }
  for (const key of isWhole ? ['system', 'sysplex'] : []) {
    if (deck.entries.has(key)) parts.set(key, String(deck.entries.get(key).value));
  }
  return parts;
}

// The paths of a deck's classes, storage groups and volumes, each once.
function pathsOf(deck) {
  const paths = new Map();
  const put = (parts) => paths.set(parts.join('.'), parts);
  for (const path of [...deck.tables.keys(), ...deck.entries.keys()]) {
    const parts = path.split('.');
    if (parts.length < 2 || !(parts[0] in KIND_WORDS)) continue;
    put(parts.slice(0, 2));
    if (parts[0] === 'storgroup' && parts[2] === 'volume' && parts.length > 3) put(parts.slice(0, 4));
  }
  return paths.values();
}

function attributes(deck, path) {
  const front = `${path.join('.')}.`;
  const isOwn = ([name]) => name.startsWith(front) && !name.slice(front.length).includes('.');
  const words = ([name, entry]) => `${name.slice(front.length)} ${entry.value}`;
  return [...deck.entries].filter(isOwn).map(words).sort().join(', ');
}

function volumeWords(deck, group, volser, isWhole) {
  const value = (key) => deck.entries.get(`storgroup.${group}.volume.${volser}.${key}`)?.value;
  const tracks = value('tracks') ?? DEVICES[value('device')] ?? value('cylinders') * 15;
  const status = isWhole && value('status') ? `, at first ${value('status')}` : '';
  return `${group}, ${number(tracks)} tracks${status}`;
}

const CHANGE_COLUMNS = [{ title: 'What' }, { title: 'Change' }, { title: 'Active' }, { title: 'This deck' }];
const CHANGES_SHOWN = 200;

function differenceTable(old, fresh) {
  const changes = [];
  for (const [name, words] of old) {
    if (!fresh.has(name)) changes.push([name, 'gone', words, null]);
    else if (fresh.get(name) !== words) changes.push([name, 'changed', words, fresh.get(name)]);
  }
  for (const [name, words] of fresh) if (!old.has(name)) changes.push([name, 'new', null, words]);
  const place = (...children) => make('div', { id: 'deck-difference' }, children);
  if (changes.length === 0) return place(empty('Nothing differs of what is compared.'));
  return place(make('p', { class: 'muted' }, changeCounts(changes)),
    table('changes stacked', CHANGE_COLUMNS, changes.slice(0, CHANGES_SHOWN).map(changeRow)));
}

function changeRow(change) {
  const values = change.map((words) => (words === '' ? 'is there' : words));
  return make('tr', { class: `change ${change[1]}` }, cells(CHANGE_COLUMNS, values));
}

function changeCounts(changes) {
  const count = (word) => changes.filter((change) => change[1] === word).length;
  const more = changes.length > CHANGES_SHOWN ? `; the first ${CHANGES_SHOWN} are shown` : '';
  return `${number(count('new'))} new, ${number(count('gone'))} gone, ${number(count('changed'))} changed${more}`;
}

// The routines that differ: the lines between their common front and their common end.
function routineChanges(active, deck) {
  const parts = [];
  for (const [kind, key] of Object.entries(KINDS)) {
    const old = String(active.entries.get(`routine.${key}`)?.value ?? '');
    const fresh = String(deck.entries.get(`routine.${key}`)?.value ?? '');
    if (old !== fresh) parts.push(routineChange(kind, old.split(LINE_END), fresh.split(LINE_END)));
  }
  return parts.length > 0 ? parts : make('p', { class: 'muted' }, 'The routines are the same.');
}

function routineChange(kind, old, fresh) {
  let front = 0;
  while (front < old.length && front < fresh.length && old[front] === fresh[front]) front += 1;
  let end = 0;
  const most = Math.min(old.length, fresh.length) - front;
  while (end < most && old[old.length - 1 - end] === fresh[fresh.length - 1 - end]) end += 1;
  return make('section', { class: 'panel' }, make('h4', {}, `${kind}, from line ${number(front + 1)} on`),
    make('ol', { class: 'lines-changed' },
      changedLines(old.slice(front, old.length - end), '-', 'gone'),
      changedLines(fresh.slice(front, fresh.length - end), '+', 'new')));
}

function changedLines(lines, sign, name) {
  const line = (text) => make('li', { class: name }, make('code', {}, `${sign} ${text}`));
  const shown = lines.slice(0, CHANGES_SHOWN).map(line);
  const more = lines.length - shown.length;
  return more > 0 ? [shown, make('li', { class: 'left-out' }, `${counted(more, 'further line')} ${name}`)] : shown;
}

// ---- Answers

const ANSWER_COLUMNS = [
  { title: 'Place', class: 'figure' }, { title: 'Job' }, { title: 'Number', class: 'figure' },
  { title: 'Asked' }, { title: 'Answer', class: 'answer' }, { title: 'First at', class: 'figure' },
];
const OF_DATA_SETS = new Set(['ALLOC', 'EXTEND', 'DELETE', 'USED', 'RELEASE']);

function answersSentence(answer) {
  return isMissing(answer) ? 'This desk does not show its answers.' : sentenceOf(answer);
}

function answersIn(answer) {
  return list(answer.body.answers).sort((one, other) => other.place - one.place);
}

async function loadAnswers(parts, load) {
  const answer = await ask('/answers');
  if (isOld(load)) return;
  known.answers = isGood(answer) ? answersIn(answer) : [];
  note('answers-note', isGood(answer) ? '' : answersSentence(answer));
  drawAnswers();
}

function drawAnswers() {
  const value = (name) => capitals(byId(`answers-${name}`).value);
  const fits = (entry) => entry.job.startsWith(value('job')) && entry.code.startsWith(value('code'))
    && (value('number') === '' || String(entry.number) === value('number'));
  const shown = known.answers.filter(fits);
  const all = counted(known.answers.length, 'entry', 'entries');
  setText(byId('answers-hint'), `Of the last ${all} of the journal, newest first: ${number(shown.length)} shown.`);
  replace(byId('answers-list'), shown.length > 0 ? answersTable(shown) : empty('No entry fits.'));
}

function answersTable(entries) {
  return table('answers stacked', ANSWER_COLUMNS, entries.map(answerRow));
}

function answerRow(entry) {
  const name = entry.code.startsWith('A') ? 'fine' : 'refused';
  return make('tr', { class: name }, cells(ANSWER_COLUMNS, answerValues(entry)));
}

function answerValues({ place, first, job, number: given, code, asked, name }) {
  const of = name !== null && OF_DATA_SETS.has(asked) ? link(hashOf('set', name), name) : name;
  return [
    number(place), job, String(given), make('span', {}, asked, of === null ? null : ' ', of),
    make('span', {}, make('b', {}, code), ` ${MEANINGS[code] ?? ''}`),
    first === place ? null : number(first),
  ];
}

// ---- Questions and keys

function question(title, text, yes) {
  const dialog = byId('question');
  setText(byId('question-title'), title);
  byId('question-text').replaceChildren(...text);
  setText(byId('question-yes'), yes);
  dialog.returnValue = '';
  dialog.showModal();
  byId('question-no').focus();
  return new Promise((settle) => {
    dialog.addEventListener('close', () => settle(dialog.returnValue === 'yes'), { once: true });
  });
}

function isTyping(target) {
  return target.matches?.('input, textarea, select') ?? false;
}

function onKey(event) {
  if (event.ctrlKey || event.metaKey || event.altKey || document.querySelector('dialog[open]')) return;
  if (event.key === 'Escape' && known.place.view === 'set') goTo(byId('set-back').hash);
  if (isTyping(event.target)) return;
  const tabs = ['#pool', '#sets', '#try', '#deck', '#answers'];
  const tab = tabs[Number(event.key) - 1];
  if (tab) goTo(tab);
  else if (event.key === '/') focusFirst(event);
  else if (event.key === '?') byId('keys').showModal();
}

function focusFirst(event) {
  event.preventDefault();
  const field = byId(VIEWS[known.place.view].section).querySelector('input:not([type=file]), textarea');
  field?.focus();
  field?.select?.();
}

// ---- The beginning

const VIEWS = {
  pool: { tab: 'pool', section: 'view-pool', load: loadPool },
  volume: { tab: 'pool', section: 'view-pool', load: loadVolume },
  sets: { tab: 'sets', section: 'view-sets', load: loadSets },
  set: { tab: 'sets', section: 'view-set', load: loadSet, showsAnswers: true },
  try: { tab: 'try', section: 'view-try', load: loadTry },
  deck: { tab: 'deck', section: 'view-deck', load: loadDeck },
  answers: { tab: 'answers', section: 'view-answers', load: loadAnswers, showsAnswers: true },
};

function onSubmit(id, act) {
  byId(id).addEventListener('submit', (event) => {
    event.preventDefault();
    act();
  });
}

function takesFiles(place) {
  place.addEventListener('dragover', (event) => {
    event.preventDefault();
    byId('deck-editor').classList.add('over');
  });
  place.addEventListener('dragleave', () => byId('deck-editor').classList.remove('over'));
  place.addEventListener('drop', (event) => {
    event.preventDefault();
    byId('deck-editor').classList.remove('over');
    takeFile(event.dataTransfer.files[0]);
  });
}

function begin() {
  makeFields();
  onSubmit('pool-find', () => goTo(hashOf('volume', capitals(byId('pool-volser').value))));
  onSubmit('sets-find', () => goTo(hashOfMask(capitals(byId('sets-mask').value))));
  onSubmit('try-form', classify);
  byId('try-form').addEventListener('input', forgetNumber);
  onSubmit('deck-form', check);
  onSubmit('answers-find', drawAnswers);
  byId('try-allocate').addEventListener('click', allocate);
  byId('deck-activate').addEventListener('click', activate);
  byId('deck-open').addEventListener('click', () => byId('deck-file').click());
  byId('deck-file').addEventListener('change', (event) => {
    takeFile(event.target.files[0]);
    // The same file may be opened once more.
    event.target.value = '';
  });
  byId('deck-active').addEventListener('click', () => setDeck(known.deck ?? ''));
  byId('deck-text').addEventListener('input', () => numberLines());
  byId('deck-text').addEventListener('scroll', followScroll);
  byId('answers-find').addEventListener('input', drawAnswers);
  byId('answers-find').addEventListener('reset', () => setTimeout(drawAnswers));
  byId('keys-button').addEventListener('click', () => byId('keys').showModal());
  takesFiles(byId('view-deck'));
  addEventListener('hashchange', arrive);
  addEventListener('keydown', onKey);
  addEventListener('resize', paintAll);
  matchMedia('(prefers-color-scheme: dark)').addEventListener('change', () => {
    known.colors = null;
    paintAll();
  });
  arrive();
  poll();
}

begin();
";
