//! The frame of a page: its head with the style, and its end with the script. `frame/make.py` writes this file.

/// What stands before the page's text.
pub const HEAD: &str = "<!DOCTYPE html>
<html lang=\"en\"><head><meta charset=\"utf-8\"><meta http-equiv=\"Content-Security-Policy\" content=\"default-src 'none'; style-src 'sha256-sip7+UoGoZ79djHYE/oeIHztqR5M2fLuBbYURmESh3o='; script-src 'sha256-euTDfX1UqSQFr1eJLdcZIO/1nLsHNjzxguHtjCaItWo='\"><meta name=\"viewport\" content=\"width=device-width, initial-scale=1\"><meta name=\"color-scheme\" content=\"light dark\"><title>taskscope</title><style>:root{--bg:#fff;--ink:#1a2027;--dim:#5a6672;--rule:#d5dce3;--card:#f6f8fa;--idle:#e6ebf0;--busy:#1f6fb8;--wait:#a85a00;--wake:#7b8794;--own:#b5179e;--bad:#c62828;--link:#0b5cad;--first:#0d3b66;--second:#3d8fd9}
@media (prefers-color-scheme:dark){:root{--bg:#11161c;--ink:#e4e9ee;--dim:#9aa7b4;--rule:#2b353f;--card:#19212a;--idle:#25303b;--busy:#4fa3e8;--wait:#ffa53d;--wake:#8796a5;--own:#f06fd8;--bad:#ff6b61;--link:#7fc0ff;--first:#cfe6ff;--second:#2f7cc4}}
*{box-sizing:border-box}
body{margin:0;background:var(--bg);color:var(--ink);font:15px/1.45 system-ui,'Segoe UI','DejaVu Sans',sans-serif}
header,main{max-width:1440px;margin:0 auto;padding:0 24px}
header{display:flex;flex-wrap:wrap;align-items:baseline;gap:4px 20px;padding-top:18px}
h1{font-size:20px;margin:0}
h2{font-size:17px;margin:26px 0 8px}
h3{font-size:15px;margin:0}
p{margin:4px 0}
small,.facts,.legend,.controls,caption{color:var(--dim)}
small{font-size:12px;font-weight:400}
.facts b{color:var(--ink);white-space:nowrap}
.count{background:var(--bad);color:var(--bg);border-radius:10px;padding:1px 9px;font-size:13px}
a{color:inherit;text-decoration-color:var(--dim);text-underline-offset:3px}
ul.odd{list-style:none;margin:0;padding:0;display:grid;grid-template-columns:repeat(auto-fit,minmax(300px,1fr));gap:12px}
ul.odd li{background:var(--card);border-left:5px solid var(--bad);border-radius:4px;padding:10px 14px}
ul.odd li.holds{border-color:var(--busy)}
ul.odd li.self{border-color:var(--own)}
ul.odd li.unpolled{border-color:var(--wait)}
ul.odd h3 .icon{font-weight:700}
.do{color:var(--dim);font-size:14px}
.legend{display:flex;flex-wrap:wrap;gap:4px 18px;font-size:13px}
.legend i{forced-color-adjust:none;display:inline-block;width:14px;height:12px;border-radius:2px;vertical-align:-1px}
.k-first{background:var(--first)}.k-second{background:var(--second)}.k-busy{background:var(--busy)}.k-wait{background:var(--wait)}.k-alive{background:var(--idle)}.k-lost{background:var(--bad);opacity:.55}
.legend .k-wake,.legend .k-own{height:5px;vertical-align:2px}.k-wake{background:var(--wake)}.k-own{background:var(--own)}
.controls{display:flex;flex-wrap:wrap;gap:6px 20px;font-size:14px;align-items:center}
input[type=search]{font:inherit;padding:3px 8px;border:1px solid var(--rule);border-radius:4px;background:var(--bg);color:inherit}
@media(max-width:1240px){.scroll{overflow-x:auto}}
table{border-collapse:collapse;width:100%;font-size:14px}
caption{text-align:left;font-size:13px;padding:2px 0 6px}
th,td{padding:4px 8px;text-align:left;border-bottom:1px solid var(--rule);vertical-align:middle}
thead th{white-space:nowrap;position:sticky;top:0;background:var(--bg);z-index:1}
thead button{font:inherit;font-weight:600;color:inherit;background:none;border:0;padding:0;cursor:pointer}
thead button:focus-visible,a:focus-visible,input:focus-visible{outline:2px solid var(--link);outline-offset:2px}
[aria-sort=descending] button::after{content:' ▾'}[aria-sort=ascending] button::after{content:' ▴'}
.num{text-align:right;white-space:nowrap;font-variant-numeric:tabular-nums}
tbody th{font-weight:600;min-width:150px;max-width:280px;overflow-wrap:anywhere}
#sites tbody th{font-weight:400;max-width:560px}#sites a{text-decoration:none}#sites a:hover,#sites a:focus-visible{text-decoration:underline}
tr:target{background:var(--card);outline:2px solid var(--link);outline-offset:-2px}
.course{width:48%;min-width:340px;padding:4px 0}
svg{display:block}
svg.hist{display:inline-block;width:84px;height:16px;vertical-align:-3px;margin-right:4px;border-bottom:1px solid var(--rule)}
svg.strip{width:100%;height:30px}
svg.total{width:100%;height:64px;border-bottom:1px solid var(--rule);background:linear-gradient(var(--rule) 1px,transparent 1px) 0 0/100% 32px}
.total path{stroke:var(--bg);stroke-width:.6;vector-effect:non-scaling-stroke}
.whom .who{color:var(--ink);overflow-wrap:anywhere}
tr.sum td{border:0;padding-bottom:0}tr.sum td:nth-child(2){padding-left:0;padding-right:0}
.lead{text-align:right;font-size:13px}
#table td:nth-child(4),#table td:nth-child(5){min-width:118px}#table .num small{color:var(--dim);display:block}
svg.bar{float:left;margin-top:6px;width:52px;height:9px;background:var(--idle);border-radius:2px;margin-right:4px}
.first{fill:var(--first)}.second{fill:var(--second)}.busy{fill:var(--busy)}.wait{fill:var(--wait)}.alive{fill:var(--idle)}.wake{fill:var(--wake)}.own{fill:var(--own)}.lost{fill:var(--bad);fill-opacity:.55}
.axis{display:flex;justify-content:space-between;font-size:11px;line-height:16px;color:var(--dim)}
.marks{display:flex;flex-direction:column;justify-content:space-between;height:64px;margin-bottom:16px;font-size:11px;line-height:1;color:var(--dim)}tr.sum td:last-child{vertical-align:bottom}
.badge{display:inline-block;font-size:11.5px;font-weight:600;border:1px solid currentColor;border-radius:9px;padding:0 7px;margin:2px 4px 0 0;color:var(--bad);white-space:nowrap}
.badge.holds{color:var(--busy)}.badge.self{color:var(--own)}.badge.unpolled{color:var(--wait)}
.name{display:-webkit-inline-box;-webkit-box-orient:vertical;-webkit-line-clamp:2;overflow:hidden;vertical-align:bottom}.st{white-space:nowrap}.st.closed{color:var(--dim)}.st.running{color:var(--busy);font-weight:600}.st.waiting{color:var(--wait);font-weight:600}
.res{border:1px solid var(--rule);border-radius:4px;padding:10px 14px;margin-bottom:10px}
dl{display:flex;flex-wrap:wrap;gap:2px 22px;margin:2px 0}dl div{display:flex;gap:6px}dt{color:var(--dim)}dd{margin:0;font-weight:600;font-variant-numeric:tabular-nums}
summary{cursor:pointer}
@media print{:root{--bg:#fff;--ink:#000;--dim:#444;--rule:#bbb;--card:#f4f4f4;--idle:#e6ebf0;--busy:#1f6fb8;--wait:#a85a00;--wake:#7b8794;--own:#b5179e;--bad:#c62828;--first:#0d3b66;--second:#3d8fd9}*{print-color-adjust:exact;-webkit-print-color-adjust:exact}.controls,#step{display:none}tr,li,.res{break-inside:avoid}thead{display:table-header-group}thead th{position:static}.do,.legend,.lead,.controls,caption,h3,small,.badge{font-size:inherit}body{font-size:11px}header,main{padding:0;max-width:none}table{font-size:10.5px}.course{min-width:0}@page{size:landscape;margin:12mm}}
.note{flex-basis:100%;margin:0;color:var(--dim)}
.now{max-width:1392px;width:calc(100% - 48px);margin:14px auto 0;border:2px solid var(--bad);border-radius:6px;padding:8px 16px}
.now .tag{background:var(--bad);color:var(--bg);border-radius:4px;padding:1px 8px;font-weight:700;font-size:12px;text-transform:uppercase}
.now a{font-weight:700}
ul.odd h3 small{font-weight:400;margin-left:4px}
.missing{flex-basis:100%;background:var(--card);border-left:5px solid var(--bad);padding:6px 12px;border-radius:4px}
.badges{line-height:1.5}
.controls{visibility:hidden}.live .controls{visibility:visible}
td dl{margin:0}
.in{min-width:230px;font-size:12px;font-weight:400;color:var(--dim)}
#step{position:absolute;z-index:2;max-width:420px;background:var(--ink);color:var(--bg);border-radius:4px;padding:3px 9px;font-size:13px;pointer-events:none}
.at{fill:var(--ink);fill-opacity:.18;pointer-events:none}.at.span{fill-opacity:.1;stroke:var(--ink)}#span button{font:inherit}.narrow tbody td:nth-child(6),.narrow tbody td:nth-child(7),.narrow tbody td:nth-child(10){color:var(--dim);font-style:italic}#table svg.total,#table svg.strip{cursor:crosshair}svg[tabindex]:focus-visible{outline:2px solid var(--link);outline-offset:1px}
@media(min-width:701px) and (max-width:1240px){th,td{padding:4px 5px}.course{width:40%;min-width:190px}#table td:nth-child(4),#table td:nth-child(5){min-width:106px}}
@media(max-width:700px){header,main{padding:0 12px}.scroll{overflow:visible}.scroll.wide{overflow-x:auto}#table,#table caption,#table thead,#table tbody,#table th,#table td{display:block}#table thead tr{display:none}#table thead tr.sum{display:block}tr.sum td:last-child{display:none}.lead{text-align:left}
#table tbody tr{display:grid;grid-template-columns:repeat(3,1fr);padding:6px 0;border-bottom:1px solid var(--rule)}#table tbody tr[hidden]{display:none}#table tbody th,#table tbody td{border:0;padding:2px 4px;min-width:0;max-width:none}
#table tbody th{grid-column:1/3}#table tbody td:nth-child(2){text-align:right}#table tbody .course{grid-column:1/-1;width:auto}#table tbody td:nth-child(n+7){display:none}#table tbody .num{text-align:left}svg.bar{display:none}.in{min-width:0}
#table tbody td:nth-child(4)::before{content:'busy '}#table tbody td:nth-child(5)::before{content:'waiting '}#table tbody td:nth-child(6)::before{content:'a poll '}}
.verdict b{white-space:nowrap}ul.odd li.change{border-color:var(--dim)}
#changes tbody th{font-weight:400;max-width:480px}#changes td:nth-child(2){font-weight:700}#changes .worse td:nth-child(2){color:var(--bad)}#changes .better td:nth-child(2){color:var(--busy)}
.own-link{margin-left:6px;text-decoration:none;color:var(--dim);opacity:0}tr:hover .own-link,.own-link:focus{opacity:1}
footer{max-width:1440px;margin:26px auto 18px;padding:0 24px;font-size:12px;color:var(--dim)}
</style></head><body>
";

/// What stands after the page.
pub const TAIL: &str = "
<footer>Made by taskscope 0.1.0</footer>
<script>'use strict';
document.body.className = 'live';
const title = document.querySelector('h1').textContent;
if (title !== 'taskscope') document.title = title + ': taskscope';
const table = document.getElementById('table') || document.getElementById('changes'), sites = document.getElementById('sites'), all = [...table.tBodies[0].rows];
const input = (id) => document.getElementById(id) || document.createElement('input');
for (const row of all) {
  const link = document.createElement('a');
  link.className = 'own-link';
  link.href = '#' + row.id;
  link.textContent = '#';
  link.title = 'the link to this row';
  link.tabIndex = -1;
  if (row.id) row.cells[0].append(link);
}
const filter = input('filter'), only = input('only'), shown = input('shown');
const count = document.querySelector('.facts b'), many = table.id === 'table' && count ? Number(count.textContent.replace(/[^0-9]/g, '')) : 0;
const few = all.length < many ? all.length + ' of ' + count.textContent + ' tasks have rows' : '';
const show = () => {
  const word = filter.value.toLowerCase();
  let n = 0;
  for (const row of all) {
    const name = row.querySelector('th').textContent.toLowerCase();
    row.hidden = !name.includes(word) || (only.checked && row.dataset.odd !== '1');
    if (!row.hidden) n++;
  }
  shown.textContent = n === all.length ? few : n + ' of ' + all.length + ' tasks' + (few && ' that have rows');
};
let span = null;
const keep = () => {
  const asked = new URLSearchParams();
  if (filter.value) asked.set('name', filter.value);
  if (only.checked) asked.set('odd', '1');
  for (const [word, sortable] of [['sort', table], ['places', sites]]) {
    const head = sortable && sortable.tHead.querySelector('[aria-sort]');
    if (head) asked.set(word, (head.ariaSort === 'descending' ? '-' : '') + head.cellIndex);
  }
  if (span) asked.set('span', span.join('-'));
  const words = asked.toString();
  history.replaceState(null, '', (words ? '?' + words : location.pathname) + location.hash);
};
filter.addEventListener('input', () => { show(); keep(); });
only.addEventListener('change', () => { show(); keep(); });
addEventListener('hashchange', () => {
  const row = document.getElementById(location.hash.slice(1));
  if (row && row.hidden) {
    filter.value = '';
    only.checked = false;
    show();
    row.scrollIntoView();
  }
});
const of = (cell) => cell.dataset.v === undefined ? cell.textContent : BigInt(cell.dataset.v);
const order = (table, rows) => {
  const head = table.tHead.querySelector('[aria-sort]');
  if (!head) return;
  const i = head.cellIndex, way = head.getAttribute('aria-sort') === 'descending' ? -1 : 1;
  rows.sort((a, b) => {
    const x = of(a.cells[i]), y = of(b.cells[i]);
    return (x < y ? -1 : x > y ? 1 : 0) * way;
  });
  table.tBodies[0].append(...rows);
};
const sorts = (table, rows) => {
  for (const button of table.tHead.querySelectorAll('button')) {
    const head = button.parentNode;
    button.addEventListener('click', () => {
      const down = head.getAttribute('aria-sort') !== 'descending';
      for (const other of table.tHead.querySelectorAll('[aria-sort]')) other.removeAttribute('aria-sort');
      head.setAttribute('aria-sort', down ? 'descending' : 'ascending');
      order(table, rows);
      keep();
    });
  }
};
const sorted = (table, sort) => {
  const button = sort && table && table.tHead.rows[table.tHead.rows.length - 1].cells[Math.abs(sort)]?.querySelector('button');
  if (button) for (let times = sort[0] === '-' ? 1 : 2; times > 0; times--) button.click();
};
sorts(table, all);
if (sites) {
  sorts(sites, [...sites.tBodies[0].rows]);
  for (const head of sites.tBodies[0].querySelectorAll('th')) {
    const at = / at (.*?:[0-9]+:[0-9]+)/.exec(head.textContent);
    if (!at) continue;
    const link = document.createElement('a');
    link.href = '#tasks';
    link.title = 'its tasks';
    link.append(...head.childNodes);
    head.append(link);
    link.addEventListener('click', () => { filter.value = at[1]; only.checked = false; show(); keep(); });
  }
}
const asked = new URLSearchParams(location.search);
filter.value = asked.get('name') || '';
only.checked = asked.has('odd');
sorted(table, asked.get('sort'));
sorted(sites, asked.get('places'));
show();
const watched = Number(table.dataset.v), unit = Math.floor(watched / 1000) + 1;
const grouped = (n) => n < 10000 ? String(n) : String(n).replace(/(?!^)(?=([0-9]{3})+$)/g, String.fromCharCode(0x202f));
const noBreak = String.fromCharCode(160);
const tenths = (n, few) => n < few ? (n / 10).toFixed(1) : grouped(Math.floor(n / 10));
const time = (ns) => {
  const [word, size] = [['s', 1e9], ['ms', 1e6], [String.fromCharCode(181) + 's', 1e3]].find((one) => ns >= one[1]) || ['ns', 1];
  return (size > 1 ? tenths(Math.floor(ns * 10 / size), 1000) : grouped(ns)) + noBreak + word;
};
const moment = (x, wide) => {
  if (x === 0 || x >= wide) return x === 0 ? '0' : time(watched);
  for (let size = 1e20; size >= 1; size /= 10) {
    const round = Math.ceil(x * unit / size) * size;
    if (round < (x + 1) * unit) return time(round);
  }
  return time(x * unit);
};
const share = (n) => tenths(n, 100) + noBreak + '%';
const mean = (n) => grouped(Math.floor(n / 1000)) + '.' + Math.floor(n % 1000 / 100);
const whom = [...table.querySelectorAll('.who')].map((who) => who.textContent);
const told = (strip, step) => {
  const name = strip.closest('tr').querySelector('.name');
  if (!name) return mean(step[1]) + ' tasks waited' + whom.map((who, i) => step[i + 2] ? ', ' + mean(step[i + 2]) + ' for ' + who : '').join('');
  const own = step[4] ? ', ' + grouped(step[4]) + ' of its own' : '';
  return name.textContent + ': busy ' + share(step[1]) + ', waiting ' + share(step[2]) + ', ' + grouped(step[3]) + (step[3] === 1 ? ' wake' : ' wakes') + own;
};
const tip = document.createElement('p'), mark = document.createElementNS('http://www.w3.org/2000/svg', 'rect');
tip.id = 'step';
tip.hidden = true;
tip.setAttribute('role', 'status');
document.body.append(tip);
mark.setAttribute('class', 'at');
mark.setAttribute('height', '100%');
const strips = () => [...table.querySelectorAll('svg[data-steps]')].filter((strip) => strip.dataset.steps && strip.getClientRects().length);
const steps = (strip) => strip.dataset.steps.split(';').slice(0, -1).map((step) => step.split(',').map(Number));
const wide = (strip) => strip.viewBox.baseVal.width;
const at = (strip, x) => steps(strip).findLastIndex((step) => step[0] <= x);
const hide = () => { tip.hidden = true; mark.remove(); };
const tell = (strip, i) => {
  const all = steps(strip), step = all[i], end = wide(strip), to = i + 1 < all.length ? all[i + 1][0] : end;
  if (!step) return hide();
  mark.setAttribute('x', step[0]);
  mark.setAttribute('width', to - step[0]);
  strip.append(mark);
  tip.textContent = moment(step[0], end) + ' to ' + moment(to, end) + ': ' + told(strip, step);
  tip.hidden = false;
  const box = strip.getBoundingClientRect(), most = document.documentElement.clientWidth - tip.offsetWidth - 8;
  tip.style.left = scrollX + Math.max(8, Math.min(box.left + box.width * step[0] / end, most)) + 'px';
  tip.style.top = scrollY + (box.bottom + tip.offsetHeight + 8 > innerHeight ? box.top - tip.offsetHeight - 4 : box.bottom + 4) + 'px';
};
const chosen = document.createElement('span'), band = mark.cloneNode(), whole = new Map();
chosen.setAttribute('role', 'status');
chosen.id = 'span';
band.setAttribute('class', 'at span');
shown.after(chosen);
const sums = (strip, from, to) => {
  const every = steps(strip), sum = [0, 0, 0, 0];
  every.forEach((step, i) => {
    const end = i + 1 < every.length ? every[i + 1][0] : wide(strip), part = Math.min(end, to) - Math.max(step[0], from);
    if (part > 0) sum.forEach((_, n) => { sum[n] += step[n + 1] * part / (n < 2 ? to - from : end - step[0]); });
  });
  return sum;
};
const put = (cell, v, text, part) => {
  cell.dataset.v = Math.round(v);
  if (part === undefined) return cell.replaceChildren(text);
  cell.querySelector('rect').setAttribute('width', Math.min(100, Math.round(part / 10)));
  cell.querySelector('svg').nextSibling.textContent = ' ' + text + ' ';
  cell.querySelector('small').textContent = time(Math.round(v));
};
const narrow = (row) => {
  const strip = row.querySelector('svg[data-steps]');
  if (!strip) return;
  const [busy, wait, wakes, own] = sums(strip, ...span), long = (span[1] - span[0]) * unit;
  put(row.cells[3], busy * long / 1000, share(busy), busy);
  put(row.cells[4], wait * long / 1000, share(wait), wait);
  put(row.cells[7], wakes, grouped(Math.round(wakes)));
  put(row.cells[8], own, grouped(Math.round(own)));
};
const choose = (from, to) => {
  const total = table.querySelector('svg.total');
  for (const [cell, was] of whole) {
    cell.replaceChildren(...[...was.childNodes].map((node) => node.cloneNode(true)));
    cell.dataset.v = was.dataset.v;
  }
  band.remove();
  chosen.replaceChildren();
  span = total && from >= 0 && from < to && to <= wide(total) ? [from, to] : null;
  table.classList.toggle('narrow', span !== null);
  if (span) {
    if (!whole.size) for (const row of all) for (const i of [3, 4, 7, 8]) whole.set(row.cells[i], row.cells[i].cloneNode(true));
    all.forEach(narrow);
    band.setAttribute('x', from);
    band.setAttribute('width', to - from);
    total.append(band);
    const lift = document.createElement('button');
    lift.type = 'button';
    lift.textContent = 'Show the whole time';
    lift.addEventListener('click', () => choose(0, 0));
    chosen.append('Busy, waiting, wakes and own: from ' + moment(from, wide(total)) + ' to ' + moment(to, wide(total)) + ' ', lift);
  }
  order(table, all);
  keep();
};
const reaches = (strip, from, to) => {
  const every = steps(strip), [a, b] = from < to ? [from, to] : [to, from];
  if (every[a]) choose(every[a][0], b + 1 < every.length ? every[b + 1][0] : wide(strip));
};
for (const button of document.querySelectorAll('th[title] button')) {
  const hint = button.parentNode.title;
  if (!hint) continue;
  button.addEventListener('focus', () => {
    if (!button.matches(':focus-visible')) return;
    const box = button.getBoundingClientRect();
    tip.textContent = hint;
    tip.hidden = false;
    tip.style.left = scrollX + Math.max(8, Math.min(box.left, document.documentElement.clientWidth - tip.offsetWidth - 8)) + 'px';
    tip.style.top = scrollY + box.bottom + 4 + 'px';
  });
  button.addEventListener('blur', hide);
}
let reached = 0, anchor = null;
const reach = (strip) => {
  for (const other of table.querySelectorAll('svg[tabindex]')) other.setAttribute('tabindex', '-1');
  strip.setAttribute('tabindex', '0');
  strip.focus();
};
for (const strip of table.querySelectorAll('svg[data-steps]')) {
  strip.setAttribute('tabindex', '-1');
  const under = (event) => {
    const box = strip.getBoundingClientRect();
    return at(strip, (event.clientX - box.left) / box.width * wide(strip));
  };
  const point = (event) => tell(strip, under(event));
  let pressed = null;
  strip.addEventListener('pointerdown', (event) => { pressed = event.pointerType === 'touch' ? null : under(event); });
  strip.addEventListener('pointerup', (event) => {
    const i = under(event);
    if (pressed !== null && i !== pressed && i >= 0) reaches(strip, Math.max(0, pressed), i);
    pressed = null;
  });
  strip.addEventListener('pointermove', point);
  strip.addEventListener('pointerdown', point);
  strip.addEventListener('pointerleave', hide);
  strip.addEventListener('blur', hide);
  strip.addEventListener('focus', () => { if (strip.matches(':focus-visible')) tell(strip, Math.max(0, at(strip, reached))); });
  strip.addEventListener('keydown', (event) => {
    const all = steps(strip), i = Math.max(0, at(strip, reached)), rows = strips(), row = rows.indexOf(strip);
    const go = { ArrowLeft: i - 1, ArrowRight: i + 1, Home: 0, End: all.length - 1 }[event.key];
    const next = { ArrowUp: rows[row - 1], ArrowDown: rows[row + 1] }[event.key];
    if (event.key === 'Escape') {
      hide();
      if (span) choose(0, 0);
    }
    if (next) reach(next);
    if (go !== undefined) {
      const to = Math.max(0, Math.min(go, all.length - 1));
      anchor = event.shiftKey ? anchor ?? reached : null;
      reached = all[to][0];
      tell(strip, to);
      if (anchor !== null) reaches(strip, Math.max(0, at(strip, anchor)), to);
    }
    if (next || go !== undefined) event.preventDefault();
  });
}
if (strips()[0]) strips()[0].setAttribute('tabindex', '0');
const last = document.querySelector('.facts b[data-v]'), ended = last ? Number(last.dataset.v) / 1e9 : 0;
if (ended > 1e9 && ended < 4e9) {
  const old = Math.floor(Date.now() / 1000 - ended), [word, size] = [['days', 86400], ['h', 3600], ['min', 60]].find((one) => old >= 2 * one[1]) || ['s', 1];
  const day = new Date(ended * 1000).toISOString().slice(0, 19).replace('T', ' ');
  last.after(', until ' + day + ' UTC' + (old < 0 ? '' : ', ' + Math.floor(old / size) + ' ' + word + ' ago'));
}
const [from, to] = (asked.get('span') || '').split('-').map(Number);
if (to) choose(from, to);
</script></body></html>
";
