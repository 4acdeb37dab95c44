//! A room and its page, which `expected/tests.py` writes by `expected/page.py`. STYLE stands where the page has its style sheet.

/// The layout.
pub(super) const BARE: &str = "version = 1
[room]
size = [500, 500, 500]
[task]
from = [0, 0]
to = [500, 500]
height = 0
points = [1, 1]
";

/// The name of its file.
pub(super) const BARE_NAME: &str = "bare.toml";

/// Its page.
pub(super) const BARE_PAGE: &str = "<!DOCTYPE html>
<html xmlns='http://www.w3.org/1999/xhtml' lang='en'>
<head>
<meta charset='utf-8'/>
<meta name='viewport' content='width=device-width, initial-scale=1'/>
<title>bare.toml - Lux</title>
<style>
STYLE</style>
</head>
<body>
<h1>Light in bare.toml</h1>
<p>Illuminance at 1 task point, 0.000 m above the floor of a room of 0.500 by 0.500 m, 0.500 m high, with 0 lamps and 0 boxes.</p>
<dl>
<div><dt>Average</dt><dd>0.00 to 0.00 lx</dd></div>
<div><dt>Uniformity</dt><dd>none: the average may be 0</dd></div>
</dl>
<figure>
<div class='scroll'><svg class='light' viewBox='0 0 560 545' role='img' aria-label='Plan with the illuminance at each task point'>
<defs><pattern id='covered' width='15' height='15' patternUnits='userSpaceOnUse' patternTransform='rotate(45)'><path d='M0 0V15' stroke='#555' stroke-width='5'/></pattern></defs>
<g transform='translate(30 7)'>
<rect class='floor' x='0' y='0' width='500' height='500'/>
<rect class='s0' x='0' y='0' width='500' height='500'><title>point 0 0 at 0.250, 0.250 m: 0.00 to 0.00 lx</title></rect>
<rect class='wall' x='0' y='0' width='500' height='500'/>
<g class='values' font-size='15'>
<text class='s0 w' x='250' y='247'>0.00<tspan x='250' dy='18'>0.00</tspan></text>
</g>
<path class='bar' d='M0 515h100'/><text class='label' font-size='12' x='107' y='518'>0.100 m</text>
</g>
</svg></div>
<figcaption>Light: each cell belongs to the task point in its middle and holds the lower and the upper end of its interval in lux; its colour goes by the lower end. Thin lines are boxes, and hatched cells are covered by one. x runs to the right, y upward.</figcaption>
<ul class='legend'>
<li class='s0 w'>0</li>
<li class='s1 w'>5</li>
<li class='s2 w'>10</li>
<li class='s3 w'>20</li>
<li class='s4 w'>30</li>
<li class='s5 w'>50</li>
<li class='s6 w'>75</li>
<li class='s7 w'>100</li>
<li class='s8 k'>150</li>
<li class='s9 k'>200</li>
<li class='s10 k'>300</li>
<li class='s11 k'>500</li>
<li class='s12 k'>750</li>
<li class='s13 k'>1000</li>
<li class='s14 k'>1500</li>
<li class='s15 k'>2000</li>
<li class='s16 k'>3000</li>
<li class='s17 k'>5000</li>
<li class='hatch'>covered</li>
</ul>
<p class='note'>Each colour from its number of lux up to the next.</p>
</figure>
<figure>
<div class='scroll'><svg class='things' viewBox='0 0 560 545' role='img' aria-label='Plan of the boxes, the lamps and the task area'>
<g transform='translate(30 7)'>
<rect class='floor' x='0' y='0' width='500' height='500'/>
<rect class='task' x='0' y='0' width='500' height='500'/>
<rect class='wall' x='0' y='0' width='500' height='500'/>
<text class='label middle' font-size='15' x='250' y='522'>x: 0.500 m</text>
<text class='label middle' font-size='15' transform='translate(-11 250) rotate(-90)'>y: 0.500 m</text>
</g>
</svg></div>
<figcaption>Things: boxes have the height of their tops in metres. Circles are lamps with their numbers, and a grey rectangle is what a lamp shines from. An arrow is the aim of a lamp that is aimed along the floor, a second circle marks a lamp that is aimed upward, and a line out of a circle the half-plane C 0 of a lamp that is turned. The dashed line is the task area. x runs to the right, y upward.</figcaption>
</figure>
<h2>Surfaces</h2>
<div class='scroll'><table>
<thead><tr><th>Surface</th><th>Reflectance</th></tr></thead>
<tbody>
<tr><td>Floor</td><td>0.000</td></tr>
<tr><td>Ceiling</td><td>0.000</td></tr>
<tr><td>Wall x = 0</td><td>0.000</td></tr>
<tr><td>Far x wall</td><td>0.000</td></tr>
<tr><td>Wall y = 0</td><td>0.000</td></tr>
<tr><td>Far y wall</td><td>0.000</td></tr>
</tbody>
</table></div>
<p>Patches: 6, with edges of at most 0.600 m. Task points: 1, in 1 column by 1 row.</p>
<section class='account'>
<h2>What the numbers are, and what is proved</h2>
<p><b>Proved:</b> each printed interval meets, at every depth from 2, the enclosure of the exact value that the radiosity equations of this room give, and where these enclosures narrow to one number it holds that number; none is wider than stated amounts allow. No digit is off by rounding, by an iteration that stopped early or by floating point. A limit is met where the whole printed interval reaches it, missed where the whole interval lies below it, and else undecided; it is the designer's number and no standard's.</p>
<p><b>Not proved:</b> that the layout describes the real room, that a real lamp shines as its number or its file says, and that the equations are the room's light.</p>
<p>The equations are a model: surfaces are cut into patches with edges of at most 0.600 m, each of one illuminance, which hand light on between their middles and reflect it evenly in all directions. Where lamps hang clear of the surfaces, averages came within 3 per cent of a path tracer's with coarse patches, and within 1 per cent with finer ones. Where a lamp shines on a surface from less than about a patch edge away, the numbers depend on where the patches lie: compare them with those of smaller patches.</p>
<p>Checked with <code>rattle-kit-13f logic dac8208d650f15bf</code>. To repeat it, with the room's file and its photometric files in one folder: <code>lux report bare.toml</code> prints the same intervals, <code>lux certify bare.toml &gt; claim.csv</code> writes bounds of the light of every patch, and <code>lux check bare.toml claim.csv</code> checks them without solving.</p>
</section>
</body>
</html>
";
