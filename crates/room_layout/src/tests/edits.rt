//! The table of edits: lines in place of those of `EVERY_KEY` with the same key, `;` between them, and after `>` what is printed.

/// A layout with every key, one line for each key at its top.
pub const EVERY_KEY: &str = "version = 1
room = { size = [6000, 5000, 3000], reflect = [200, 700, 500, 500, 500, 500], patch = 500 }
box = [{ lo = [0, 0, 0], hi = [1000, 500, 700], reflect = 300 }]
lamp = [{ at = [3000, 3000, 3000], candela = 5000, turn = 90, maintenance = 800, size = [600, 600], split = [2, 2] }, { at = [1000, 1000, 2500], file = 'a.ldt', set = 2 }]
task = { from = [0, 0], to = [6000, 5000], height = 700, points = [9, 7] }
limits = { average_millilux = 500000, uniformity_permille = 400 }";

/// What is expected of each edit.
pub const EDITS: &str = "version > 2 Version
version = '1' > 2 Version
version = 1.0 > 2 Version
version = 0 > 2 Version
version = 3 > 2 Version
version = 1 > accepted
version = 2 > accepted
colour = 1 > 4 Unknown version
colour = 1; version = 3 > 2 Version
colour = 1; room > 4 Unknown version
lamps = []; task = 1 > 4 Unknown version
room > 3 Missing room
room = 1 > 5 Kind room
room = [] > 5 Kind room
room = { colour = 1 } > 4 Unknown room
room = {} > 3 Missing room.size
room; box = 1 > 3 Missing room
room = { size = 1 } > 5 Kind room.size
room = { size = [6000, 5000] } > 5 Kind room.size
room = { size = [6000, 5000, 3000, 1] } > 5 Kind room.size
room = { size = [6000, 5000, 3000.0] } > 5 Kind room.size
room = { size = [499, 5000, '3000'] } > 5 Kind room.size
room = { size = [499, 5000, 3000] } > 6 Range room.size
room = { size = [50001, 5000, 3000] } > 6 Range room.size
room = { size = [6000, 5000, 499] } > 6 Range room.size
room = { size = [-6000, 5000, 3000] } > 6 Range room.size
room = { size = [500, 500, 500] }; box; lamp; task = { from = [0, 0], to = [500, 500], height = 500, points = [1, 1] }; limits > accepted
room = { size = [50000, 50000, 50000] }; limits > accepted
room = { size = [499, 5000, 3000], reflect = 1 } > 6 Range room.size
room = { size = [6000, 5000, 3000], reflect = 1 } > 5 Kind room.reflect
room = { size = [6000, 5000, 3000], reflect = [0, 0, 0, 0, 0] } > 5 Kind room.reflect
room = { size = [6000, 5000, 3000], reflect = [0, 0, 0, 0, 0, true] } > 5 Kind room.reflect
room = { size = [6000, 5000, 3000], reflect = [0, 0, 0, 0, 0, 951] } > 6 Range room.reflect
room = { size = [6000, 5000, 3000], reflect = [-1, 0, 0, 0, 0, 0] } > 6 Range room.reflect
room = { size = [6000, 5000, 3000], reflect = [950, 0, 950, 0, 950, 0] }; limits > accepted
room = { size = [6000, 5000, 3000], reflect = [0, 0, 0, 0, 0, 951], patch = 'x' } > 6 Range room.reflect
room = { size = [6000, 5000, 3000], patch = '50' } > 5 Kind room.patch
room = { size = [6000, 5000, 3000], patch = [50] } > 5 Kind room.patch
room = { size = [6000, 5000, 3000], patch = 49 } > 6 Range room.patch
room = { size = [6000, 5000, 3000], patch = 50001 } > 6 Range room.patch
room = { size = [6000, 5000, 3000], patch = 50 }; limits > accepted
room = { size = [6000, 5000, 3000], patch = 50000 }; limits > accepted
room = { size = [6000, 5000, 3000], patch = 49, reflect = 1 } > 5 Kind room.reflect
room = { size = [6000, 5000, 3000], patch = 49, colour = 1 } > 4 Unknown room
box = 1 > 5 Kind box 0
box = {} > 5 Kind box 0
box = [1] > 5 Kind box 0
box = [{ lo = [0, 0, 0], hi = [1, 1, 1] }, 1] > 5 Kind box 1
box = []; limits > accepted
box = [{ colour = 1 }] > 4 Unknown box 0
box = [{ lo = [0, 0, 0], hi = [1, 1, 1] }, { colour = 1 }] > 4 Unknown box 1
box = [{ hi = [1, 1, 1] }] > 3 Missing box.lo 0
box = [{ lo = [0, 0, 0], hi = [1, 1, 1] }, { hi = 1 }] > 3 Missing box.lo 1
box = [{ lo = 0, hi = [1, 1, 1] }] > 5 Kind box.lo 0
box = [{ lo = [0, 0], hi = [1, 1, 1] }] > 5 Kind box.lo 0
box = [{ lo = [0, 0, -1], hi = [1, 1, 1] }] > 6 Range box.lo 0
box = [{ lo = [50001, 0, 0], hi = [1, 1, 1] }] > 6 Range box.lo 0
box = [{ lo = [0, 0, 0], hi = [1, 1, 1] }, { lo = [50001, 0, 0] }] > 6 Range box.lo 1
box = [{ lo = [0, 0, 0] }] > 3 Missing box.hi 0
box = [{ lo = [0, 0, 0], hi = 'x' }] > 5 Kind box.hi 0
box = [{ lo = [0, 0, 0], hi = [1, 1, 50001] }] > 6 Range box.hi 0
box = [{ lo = [0, 0, 0], hi = [1, 1, -1] }] > 6 Range box.hi 0
box = [{ lo = [0, 0, 0], hi = [1, 1, 1], reflect = [] }] > 5 Kind box.reflect 0
box = [{ lo = [0, 0, 0], hi = [1, 1, 1], reflect = -1 }] > 6 Range box.reflect 0
box = [{ lo = [0, 0, 0], hi = [1, 1, 1], reflect = 951 }] > 6 Range box.reflect 0
box = [{ lo = [0, 0, 0], hi = [1, 1, 1], reflect = 950 }]; limits > accepted
box = [{ lo = [5, 5, 5], hi = [6, 5, 6] }] > 6 Range box.hi 0
box = [{ lo = [5, 5, 5], hi = [6, 5, 6], reflect = 951 }] > 6 Range box.reflect 0
box = [{ lo = [5, 5, 5], hi = [6, 4, 9000] }] > 6 Range box.hi 0
box = [{ lo = [0, 0, 0], hi = [6001, 5000, 3000] }] > 7 Outside box 0
box = [{ lo = [0, 0, 0], hi = [6000, 5001, 3000] }] > 7 Outside box 0
box = [{ lo = [0, 0, 0], hi = [1, 1, 1] }, { lo = [0, 0, 0], hi = [6000, 5000, 3001] }] > 7 Outside box 1
box = [{ lo = [0, 0, 0], hi = [6000, 5000, 3000] }]; limits > accepted
box = [{ lo = [5, 5, 5], hi = [6, 5, 6] }, 1]; lamp = 1 > 6 Range box.hi 0
box = 1; lamp = 1 > 5 Kind box 0
lamp = 1 > 5 Kind lamp 0
lamp = {} > 5 Kind lamp 0
lamp = [1] > 5 Kind lamp 0
lamp = [{ at = [0, 0, 0], candela = 1 }, []] > 5 Kind lamp 1
lamp = []; limits > accepted
lamp; limits > accepted
lamp = [{ colour = 1 }] > 4 Unknown lamp 0
lamp = [{ at = [0, 0, 0], candela = 1 }, { colour = 1, at = 1 }] > 4 Unknown lamp 1
lamp = [{ candela = 1 }] > 3 Missing lamp.at 0
lamp = [{ at = 1 }] > 5 Kind lamp.at 0
lamp = [{ at = [1, 1] }] > 5 Kind lamp.at 0
lamp = [{ at = [50001, 0, 0] }] > 6 Range lamp.at 0
lamp = [{ at = [0, 0, 0], candela = 1 }, { at = [0, 0, -1] }] > 6 Range lamp.at 1
lamp = [{ at = [50000, 0, 0] }] > 3 Missing lamp.candela 0
lamp = [{ at = [0, 0, 0], candela = 'x' }] > 5 Kind lamp.candela 0
lamp = [{ at = [0, 0, 0], candela = 10000001 }] > 6 Range lamp.candela 0
lamp = [{ at = [0, 0, 0], candela = -1 }] > 6 Range lamp.candela 0
lamp = [{ at = [0, 0, 0], candela = 10000000 }]; limits > accepted
lamp = [{ at = [0, 0, 0], candela = 0 }]; limits > accepted
lamp = [{ at = [0, 0, 0], file = 1 }] > 5 Kind lamp.file 0
lamp = [{ at = [0, 0, 0], file = '' }] > 6 Range lamp.file 0
lamp = [{ at = [0, 0, 0], file = \"a\\tb\" }] > 6 Range lamp.file 0
lamp = [{ at = [0, 0, 0], file = \"a\\u007Fb\" }] > 6 Range lamp.file 0
lamp = [{ at = [0, 0, 0], file = 'aaaaaaaaaaaaaaaaaaaaaaaaaaaaaaaaaaaaaaaaaaaaaaaaaaaaaaaaaaaaaaaaaaaaaaaaaaaaaaaaaaaaaaaaaaaaaaaaaaaaaaaaaaaaaaaaaaaaaaaaaaaaaaaaaaaaaaaaaaaaaaaaaaaaaaaaaaaaaaaaaaaaaaaaaaaaaaaaaaaaaaaaaaaaaaaaaaaaaaaaaaaaaaaaaaaaaaaaaaaaaaaaaaaaaaaaaaaaaaaaaaaaaaaaaaaaaaa' }]; limits > accepted
lamp = [{ at = [0, 0, 0], file = 'aaaaaaaaaaaaaaaaaaaaaaaaaaaaaaaaaaaaaaaaaaaaaaaaaaaaaaaaaaaaaaaaaaaaaaaaaaaaaaaaaaaaaaaaaaaaaaaaaaaaaaaaaaaaaaaaaaaaaaaaaaaaaaaaaaaaaaaaaaaaaaaaaaaaaaaaaaaaaaaaaaaaaaaaaaaaaaaaaaaaaaaaaaaaaaaaaaaaaaaaaaaaaaaaaaaaaaaaaaaaaaaaaaaaaaaaaaaaaaaaaaaaaaaaaaaaaaaa' }] > 6 Range lamp.file 0
lamp = [{ at = [0, 0, 0], file = ' ~' }]; limits > accepted
lamp = [{ at = [0, 0, 0], file = 'äääääääääääääääääääääääääääääääääääääääääääääääääääääääääääääääääääääääääääääääääääääääääääääääääääääääääääääääääääääääääääääääa' }]; limits > accepted
lamp = [{ at = [0, 0, 0], file = 'ääääääääääääääääääääääääääääääääääääääääääääääääääääääääääääääääääääääääääääääääääääääääääääääääääääääääääääääääääääääääääääääää' }] > 6 Range lamp.file 0
lamp = [{ at = [0, 0, 0], candela = 1 }, { at = [1000, 1000, 1000], candela = 1, set = true }] > 5 Kind lamp.set 1
lamp = [{ at = [1000, 1000, 1000], candela = 1, set = 0 }] > 6 Range lamp.set 0
lamp = [{ at = [1000, 1000, 1000], candela = 1, set = 21 }] > 6 Range lamp.set 0
lamp = [{ at = [1000, 1000, 1000], candela = 1, set = 1 }]; limits > accepted
lamp = [{ at = [0, 0, 0], file = 'a', set = 20 }]; limits > accepted
lamp = [{ at = [0, 0, 0], file = 'a', set = 1 }]; limits > accepted
lamp = [{ at = [0, 0, 0], file = 'a', set = 0 }] > 6 Range lamp.set 0
lamp = [{ at = [0, 0, 0], file = 'a', set = 21 }] > 6 Range lamp.set 0
lamp = [{ at = [0, 0, 0], set = 21 }] > 6 Range lamp.set 0
lamp = [{ at = [1000, 1000, 1000], candela = 1, turn = [] }] > 5 Kind lamp.turn 0
lamp = [{ at = [1000, 1000, 1000], candela = 1, turn = -1 }] > 6 Range lamp.turn 0
lamp = [{ at = [0, 0, 0], candela = 1 }, { at = [1000, 1000, 1000], candela = 1, turn = 360 }] > 6 Range lamp.turn 1
lamp = [{ at = [1000, 1000, 1000], candela = 1, turn = 359 }]; limits > accepted
lamp = [{ at = [1000, 1000, 1000], candela = 1, turn = 0 }]; limits > accepted
lamp = [{ at = [1000, 1000, 1000], candela = 1, maintenance = 1.0 }] > 5 Kind lamp.maintenance 0
lamp = [{ at = [1000, 1000, 1000], candela = 1, maintenance = -1 }] > 6 Range lamp.maintenance 0
lamp = [{ at = [1000, 1000, 1000], candela = 1, maintenance = 1001 }] > 6 Range lamp.maintenance 0
lamp = [{ at = [1000, 1000, 1000], candela = 1, maintenance = 1000 }]; limits > accepted
lamp = [{ at = [1000, 1000, 1000], candela = 1, maintenance = 0 }]; limits > accepted
lamp = [{ at = [1000, 1000, 1000], candela = 1, size = 1 }] > 5 Kind lamp.size 0
lamp = [{ at = [1000, 1000, 1000], candela = 1, size = [1, 1, 1] }] > 5 Kind lamp.size 0
lamp = [{ at = [1000, 1000, 1000], candela = 1, size = [5001, 0] }] > 6 Range lamp.size 0
lamp = [{ at = [1000, 1000, 1000], candela = 1, size = [0, -1] }] > 6 Range lamp.size 0
lamp = [{ at = [2500, 2500, 0], candela = 1, size = [5000, 5000] }]; limits > accepted
lamp = [{ at = [3500, 2500, 0], file = 'a', size = [5000, 5000] }]; limits > accepted
lamp = [{ at = [2499, 2500, 0], candela = 1, size = [5000, 5000] }] > 7 Outside lamp 0
lamp = [{ at = [3501, 2500, 0], candela = 1, size = [5000, 5000] }] > 7 Outside lamp 0
lamp = [{ at = [2500, 2500, 0], candela = 1, size = [5000, 5001] }] > 6 Range lamp.size 0
lamp = [{ at = [1000, 1000, 1000], candela = 1, split = [1] }] > 5 Kind lamp.split 0
lamp = [{ at = [1000, 1000, 1000], candela = 1, split = [0, 1] }] > 6 Range lamp.split 0
lamp = [{ at = [1000, 1000, 1000], candela = 1, split = [1, 9] }] > 6 Range lamp.split 0
lamp = [{ at = [1000, 1000, 1000], candela = 1, split = [8, 1] }]; limits > accepted
lamp = [{ at = [1000, 1000, 1000], candela = 1, split = [1, 8] }]; limits > accepted
lamp = [{ at = [1000, 1000, 1000], file = 'a', split = [8, 8] }]; limits > accepted
lamp = [{ at = [1000, 1000, 1000], candela = 1, split = [1, 0] }] > 6 Range lamp.split 0
lamp = [{ at = [1000, 1000, 1000], candela = 1, split = [9, 1] }] > 6 Range lamp.split 0
lamp = [{ at = [0, 0, 0] }] > 3 Missing lamp.candela 0
lamp = [{ at = [9000, 0, 0] }] > 3 Missing lamp.candela 0
lamp = [{ at = [0, 0, 0], candela = 1, file = 'a' }] > 5 Kind lamp.file 0
lamp = [{ at = [9000, 0, 0], candela = 1, file = 'a' }] > 5 Kind lamp.file 0
lamp = [{ at = [0, 0, 0], split = [0, 1] }] > 6 Range lamp.split 0
lamp = [{ at = [6001, 0, 0], candela = 1 }] > 7 Outside lamp 0
lamp = [{ at = [0, 5001, 0], candela = 1 }] > 7 Outside lamp 0
lamp = [{ at = [0, 0, 0], candela = 1 }, { at = [0, 0, 3001], candela = 1 }] > 7 Outside lamp 1
lamp = [{ at = [6000, 5000, 3000], candela = 1 }]; limits > accepted
lamp = [{ at = [100, 100, 0], candela = 1, size = [200, 200] }]; limits > accepted
lamp = [{ at = [100, 100, 0], candela = 1, size = [201, 0] }] > 7 Outside lamp 0
lamp = [{ at = [100, 100, 0], candela = 1, size = [0, 201] }] > 7 Outside lamp 0
lamp = [{ at = [5900, 0, 0], candela = 1, size = [201, 0] }] > 7 Outside lamp 0
lamp = [{ at = [0, 4900, 0], candela = 1, size = [0, 201] }] > 7 Outside lamp 0
lamp = 1; task = 1 > 5 Kind lamp 0
lamp = [{ at = [0, 0, 0], candela = 1, aim = '-z' }] > 4 Unknown lamp 0
version = 2; room = { size = [100000, 100000, 100000] }; limits > accepted
version = 2; room = { size = [100001, 5000, 3000] } > 6 Range room.size
version = 2; room = { size = [499, 5000, 3000] } > 6 Range room.size
version = 2; room = { size = [6000, 5000, 3000], patch = 50001 } > 6 Range room.patch
version = 2; box = [{ lo = [100000, 0, 0], hi = [100001, 1, 1] }] > 6 Range box.hi 0
version = 2; box = [{ lo = [0, 0, 100001], hi = [1, 1, 1] }] > 6 Range box.lo 0
version = 2; box = [{ lo = [0, 0, 0], hi = [100000, 1, 1] }] > 7 Outside box 0
version = 2; lamp = [{ at = [100000, 0, 0] }] > 3 Missing lamp.candela 0
version = 2; lamp = [{ at = [0, 100001, 0] }] > 6 Range lamp.at 0
version = 2; task = { from = [100001, 0] } > 6 Range task.from
version = 2; task = { from = [100000, 0], to = [0, 100001] } > 6 Range task.to
version = 2; task = { from = [0, 0], to = [100000, 100000], height = 100001 } > 6 Range task.height
version = 2; task = { from = [0, 0], to = [100000, 100000], height = 100000, points = [1, 1] } > 7 Outside task
version = 2; lamp = [{ at = [0, 0, 0], candela = 1, aim = '-z' }]; limits > accepted
version = 2; lamp = [{ at = [0, 0, 0], candela = 1, aim = '+z' }]; limits > accepted
version = 2; lamp = [{ at = [0, 0, 0], candela = 1, aim = '-x' }]; limits > accepted
version = 2; lamp = [{ at = [0, 0, 0], candela = 1, aim = '+x' }]; limits > accepted
version = 2; lamp = [{ at = [0, 0, 0], candela = 1, aim = '-y' }]; limits > accepted
version = 2; lamp = [{ at = [0, 0, 0], file = 'a', aim = '+y' }]; limits > accepted
version = 2; lamp = [{ at = [0, 0, 0], candela = 1, aim = '-Z' }] > 6 Range lamp.aim 0
version = 2; lamp = [{ at = [0, 0, 0], candela = 1, aim = 'x' }] > 6 Range lamp.aim 0
version = 2; lamp = [{ at = [0, 0, 0], candela = 1, aim = '' }] > 6 Range lamp.aim 0
version = 2; lamp = [{ at = [0, 0, 0], candela = 1, aim = '-z ' }] > 6 Range lamp.aim 0
version = 2; lamp = [{ at = [0, 0, 0], candela = 1 }, { at = [0, 0, 0], candela = 1, aim = 1 }] > 5 Kind lamp.aim 1
version = 2; lamp = [{ at = [0, 0, 0], aim = '-Z', split = 1 }] > 5 Kind lamp.split 0
version = 2; lamp = [{ at = [0, 0, 0], aim = '-Z' }] > 6 Range lamp.aim 0
version = 2; lamp = [{ at = [0, 0, 0], candela = 1, aims = '-z' }] > 4 Unknown lamp 0
version = 2; lamp = [{ at = [0, 300, 150], candela = 1, size = [600, 300], aim = '+x' }]; limits > accepted
version = 2; lamp = [{ at = [0, 299, 150], candela = 1, size = [600, 300], aim = '+x' }] > 7 Outside lamp 0
version = 2; lamp = [{ at = [0, 300, 149], candela = 1, size = [600, 300], aim = '+x' }] > 7 Outside lamp 0
version = 2; lamp = [{ at = [6000, 4700, 2850], candela = 1, size = [600, 300], aim = '-x' }]; limits > accepted
version = 2; lamp = [{ at = [6000, 4701, 2850], candela = 1, size = [600, 300], aim = '-x' }] > 7 Outside lamp 0
version = 2; lamp = [{ at = [6000, 4700, 2851], candela = 1, size = [600, 300], aim = '-x' }] > 7 Outside lamp 0
version = 2; lamp = [{ at = [300, 0, 150], candela = 1, size = [600, 300], aim = '+y' }]; limits > accepted
version = 2; lamp = [{ at = [299, 0, 150], candela = 1, size = [600, 300], aim = '+y' }] > 7 Outside lamp 0
version = 2; lamp = [{ at = [5700, 5000, 2850], candela = 1, size = [600, 300], aim = '-y' }]; limits > accepted
version = 2; lamp = [{ at = [5700, 5000, 2851], candela = 1, size = [600, 300], aim = '-y' }] > 7 Outside lamp 0
version = 2; lamp = [{ at = [300, 150, 3000], candela = 1, size = [600, 300], aim = '+z' }]; limits > accepted
version = 2; lamp = [{ at = [300, 149, 3000], candela = 1, size = [600, 300], aim = '+z' }] > 7 Outside lamp 0
task > 3 Missing task
task = 1 > 5 Kind task
task = { colour = 1 } > 4 Unknown task
task = {} > 3 Missing task.from
task; limits = 1 > 3 Missing task
task = { from = 1 } > 5 Kind task.from
task = { from = [0, 0, 0] } > 5 Kind task.from
task = { from = [0, 50001] } > 6 Range task.from
task = { from = [-1, 0] } > 6 Range task.from
task = { from = [0, 0] } > 3 Missing task.to
task = { from = [0, 0], to = 'x' } > 5 Kind task.to
task = { from = [0, 0], to = [50001, 0] } > 6 Range task.to
task = { from = [0, 0], to = [0, -1] } > 6 Range task.to
task = { from = [0, 0], to = [1, 1] } > 3 Missing task.height
task = { from = [0, 0], to = [1, 1], height = [] } > 5 Kind task.height
task = { from = [0, 0], to = [1, 1], height = -1 } > 6 Range task.height
task = { from = [0, 0], to = [1, 1], height = 50001 } > 6 Range task.height
task = { from = [0, 0], to = [1, 1], height = 0 } > 3 Missing task.points
task = { from = [0, 0], to = [1, 1], height = 0, points = 1 } > 5 Kind task.points
task = { from = [0, 0], to = [1, 1], height = 0, points = [0, 1] } > 6 Range task.points
task = { from = [0, 0], to = [1, 1], height = 0, points = [1, 1025] } > 6 Range task.points
task = { from = [0, 0], to = [1, 1], height = 0, points = [1024, 1] }; limits > accepted
task = { from = [5, 5], to = [5, 6], height = 0, points = [1, 1] } > 6 Range task.to
task = { from = [5, 5], to = [9000, 5], height = 0, points = [1, 1] } > 6 Range task.to
task = { from = [5, 5], to = [5, 6], height = 0, points = [0, 1] } > 6 Range task.points
task = { from = [0, 0], to = [6001, 1], height = 0, points = [1024, 1024] } > 7 Outside task
task = { from = [0, 0], to = [1, 5001], height = 0, points = [1, 1] } > 7 Outside task
task = { from = [0, 0], to = [1, 1], height = 3001, points = [1, 1] } > 7 Outside task
task = { from = [0, 0], to = [6000, 5000], height = 3000, points = [1, 1] }; limits > accepted
task = { from = [0, 0], to = [1, 1], height = 0, points = [33, 32] } > 8 TooMany task.points
task = { from = [0, 0], to = [1, 1], height = 0, points = [32, 32] }; limits > accepted
task = { from = [0, 0], to = [1, 1], height = 0, points = [33, 32] }; limits = 1 > 8 TooMany task.points
limits = 1 > 5 Kind limits
limits = { colour = 1 } > 4 Unknown limits
limits = {} > accepted
limits = { average_millilux = 'x' } > 5 Kind limits.average_millilux
limits = { average_millilux = -1 } > 6 Range limits.average_millilux
limits = { average_millilux = 1000000001 } > 6 Range limits.average_millilux
limits = { average_millilux = 1000000000 } > accepted
limits = { average_millilux = -1, uniformity_permille = 'x' } > 6 Range limits.average_millilux
limits = { uniformity_permille = [] } > 5 Kind limits.uniformity_permille
limits = { uniformity_permille = -1 } > 6 Range limits.uniformity_permille
limits = { uniformity_permille = 1001 } > 6 Range limits.uniformity_permille
limits = { uniformity_permille = 1000 } > accepted
room = { size = [6000, 5000, 3000] }; box; limits; lamp > accepted
room = { size = [6000, 5000, 3000] }; box; limits; lamp = [{ at = [0, 0, 0], candela = 1 }] > accepted
room = { size = [6000, 5000, 3000], reflect = [0, 0, 0, 0, 0, 0] }; box; limits; lamp > accepted
room = { size = [6000, 5000, 3000], reflect = [950, 0, 950, 0, 950, 0] }; box; limits; lamp > accepted
room = { size = [6000, 5000, 3000], patch = 600 }; box; limits; lamp > accepted
room = { size = [6000, 5000, 3000], patch = 50 }; box; limits; lamp > accepted
room = { size = [6000, 5000, 3000], patch = 50000 }; box; limits; lamp > accepted
room = { size = [6000, 5000, 3000] }; box; limits; lamp = [{ at = [0, 0, 0], candela = 1 }, { at = [0, 0, 0], candela = 1, set = 1 }] > accepted
room = { size = [6000, 5000, 3000] }; box; limits; lamp = [{ at = [0, 0, 0], candela = 1 }, { at = [0, 0, 0], candela = 1, turn = 0 }] > accepted
room = { size = [6000, 5000, 3000] }; box; limits; lamp = [{ at = [0, 0, 0], candela = 1 }, { at = [0, 0, 0], candela = 1, maintenance = 1000 }] > accepted
room = { size = [6000, 5000, 3000] }; box; limits; lamp = [{ at = [0, 0, 0], candela = 1 }, { at = [0, 0, 0], candela = 1, size = [0, 0] }] > accepted
room = { size = [6000, 5000, 3000] }; box; limits; lamp = [{ at = [0, 0, 0], candela = 1 }, { at = [0, 0, 0], candela = 1, split = [1, 1] }] > accepted
room = { size = [6000, 5000, 3000] }; box; limits; lamp = [{ at = [0, 0, 0], file = 'a' }] > accepted
room = { size = [6000, 5000, 3000] }; box = []; limits; lamp > accepted
limits; lamp > accepted
limits; lamp = [{ at = [3000, 3000, 3000], candela = 5000 }] > accepted
room = { size = [6000, 5000, 3000] }; box; limits = {}; lamp > accepted";
