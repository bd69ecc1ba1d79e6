//! Rows of words with what is printed and noted, and addresses of depth 64.

/// Calls without a source.
pub const ROWS: &str = "\
place rule=chair addr=0: |  | 0 0 0 0,0,0,0¶|
place rule=chair addr=0:1/0,2/0 |  | 0 0 1 7,1,0,0¶|
place addr=0:1/0,2/0 rule=chair |  | 0 0 1 7,1,0,0¶|
neighbour rule=chair addr=0:0/0 edge=0 |  | 0 0:1/0 3¶|
neighbour rule=chair addr=0:1/0 edge=3 |  | 0 0:0/0 0¶|
neighbour rule=chair addr=0:0/0,1/0 edge=4 |  | 0 0:1/0,0/0 7¶|
neighbour edge=4 rule=chair addr=0:0/0 |  | 8 |8 Outside 4 0¶
neighbour rule=chair addr=0: edge=3 |  | 8 |8 Outside 3 0¶
neighbour rule=chair addr=0:0/0 edge=8 |  | 12 |12 NoEdge 8 8¶
neighbour rule=chair addr=0:0/0 edge=255 |  | 12 |12 NoEdge 255 8¶
place rule=chair addr=0:4/0 |  | 4 |4 BadAddress WrongChild 0¶
place rule=chair addr=0:300/0 |  | 4 |4 BadAddress WrongChild 0¶
place rule=chair addr=3 |  | 4 |4 BadAddress BadText 1¶
place rule=chair addr= |  | 4 |4 BadAddress BadText 0¶
place rule=chair addr=00: |  | 4 |4 BadAddress BadText 1¶
place rule=chair addr=1000: |  | 4 |4 BadAddress BadText 3¶
place rule=chair addr=0:0=0 |  | 4 |4 BadAddress BadText 3¶
place rule=chair addr=0:0/0, |  | 4 |4 BadAddress BadText 6¶
place rule=chair addr=1: |  | 4 |4 BadAddress UnknownKind 0¶
place rule=chair addr=999: |  | 4 |4 BadAddress UnknownKind 0¶
neighbour rule=chair addr=0:0/1 edge=9 |  | 4 |4 BadAddress UnknownKind 1¶
 |  | 2 |2 BadWords 0¶
walk rule=chair seed=42 addr=0: grow=6 |  | 0 0 0 0,0,0,0 0:3/0,1/0,0/0,3/0,3/0,2/0 -¶|
walk rule=p3 seed=42 addr=0: grow=3 |  | 0 0 0 0,0,0,0 0:2/3,1/1,0/1 -¶|
walk rule=chair seed=42 addr=0: path=0,3 |  | 0 0 0 0,0,0,0 0:3/0 -¶0 1 3,1,0,0 0:1/0 1¶0 1 4,0,0,0 0:0/0 0¶|
walk rule=chair addr=0: |  | 0 0 0 0,0,0,0 0: -¶|
walk rule=chair addr=0: path=8 |  | 12 |12 NoEdge 8 8¶
walk rule=chair addr=0: path=0, |  | 2 |2 BadWords 3¶
walk rule=chair addr=0: path=256 |  | 2 |2 BadWords 3¶
walk rule=chair addr=0: grow=65 |  | 2 |2 BadWords 3¶
cross rule=chair addr=0: |  | 2 |2 BadWords 0¶
place |  | 2 |2 BadWords 1¶
place rule=chair |  | 2 |2 BadWords 2¶
place rule=chair addr=0: addr=0: |  | 2 |2 BadWords 3¶
place addr=0: rule=hat |  | 2 |2 BadWords 2¶
place rule=p4 addr=0: |  | 2 |2 BadWords 1¶
check rule=p3 |  | 0 accepted order 10 kinds 4 types 8¶|
check rule=p2 |  | 0 accepted order 10 kinds 4 types 8¶|
check rule=ab |  | 0 accepted order 8 kinds 3 types 4¶|
check rule=halfhex |  | 0 accepted order 6 kinds 1 types 1¶|
place rule=halfhex addr=0:1/0,2/0 |  | 0 0 5 0,4,0,0¶|
place rule=halfhex addr=0:4/0 |  | 4 |4 BadAddress WrongChild 0¶
neighbour rule=halfhex addr=0:0/0 edge=1 |  | 0 0:1/0 2¶|
neighbour rule=halfhex addr=0:3/0,0/0 edge=0 |  | 0 0:2/0,3/0 4¶|
neighbour rule=halfhex addr=0:0/0 edge=5 |  | 12 |12 NoEdge 5 5¶
check rule=half |  | 2 |2 BadWords 1¶
place rule=p3 addr=0:0/0,0/0 |  | 0 0 4 2,0,1,-1¶|
place rule=p2 addr=1:1/0 |  | 0 1 4 2,0,1,-1¶|
place rule=ab addr=0:3/0 |  | 0 0 4 2,2,1,-1¶|
neighbour rule=p3 addr=0:0/0 edge=0 |  | 0 2:1/0 0¶|
neighbour rule=p3 addr=2:1/0,0/0 edge=2 |  | 0 3:1/2,1/0 0¶|
neighbour rule=p2 addr=1:1/0 edge=0 |  | 0 0:2/0 2¶|
neighbour rule=ab addr=0:0/0 edge=1 |  | 0 1:1/0 2¶|
neighbour rule=ab addr=1:1/0,6/0 edge=0 |  | 0 2:0/2,2/0 2¶|
neighbour rule=p3 addr=0:0/0,0/0 edge=2 |  | 8 |8 Outside 0 1¶
neighbour rule=p3 addr=0:0/0 edge=3 |  | 12 |12 NoEdge 3 3¶
place rule=chair edge=0 |  | 2 |2 BadWords 2¶
place addr rule=chair |  | 2 |2 BadWords 1¶
neighbour rule=chair addr=0: |  | 2 |2 BadWords 3¶
neighbour rule=chair addr=0: edge=256 |  | 2 |2 BadWords 3¶
neighbour rule=chair addr=0: edge=00 |  | 2 |2 BadWords 3¶
neighbour rule=chair addr=0: edge=-1 |  | 2 |2 BadWords 3¶
neighbour rule=chair edge= addr=0: |  | 2 |2 BadWords 2¶
calc |  | 2 |2 BadWords 1¶
calc rule=- |  | 2 |2 BadWords 1¶
calc rule=chair addr=0: |  | 2 |2 BadWords 2¶
calc rule=chair |  | 0 |
verify |  | 2 |2 BadWords 1¶
verify rule=- addr=0: at=1,1,0,0 half=2,1 |  | 2 |2 BadWords 1¶
verify rule=chair addr=0: at=1,1,0,0 |  | 2 |2 BadWords 4¶
verify rule=chair addr=0: at=1,1,0,0 half=2,1 layers=list |  | 2 |2 BadWords 5¶
verify rule=chair addr=1: at=1,1,0,0 half=2,1 |  | 4 |4 BadAddress UnknownKind 0¶
drill rule=chair |  | 2 |2 BadWords 2¶
drill n=1 |  | 2 |2 BadWords 2¶
drill rule=chair n=0 |  | 2 |2 BadWords 2¶
drill rule=chair n=01 |  | 2 |2 BadWords 2¶
drill rule=chair n=201 |  | 2 |2 BadWords 2¶
drill rule=chair n=1 addr=0: |  | 2 |2 BadWords 3¶
star rule=chair seed=42 addr=0: vertex=0 |  | 0 0 0 0,0,0,0 0:3/0 0¶0 1 3,1,0,0 0:1/0 2¶|
star vertex=0 addr=0: seed=42 rule=chair |  | 0 0 0 0,0,0,0 0:3/0 0¶0 1 3,1,0,0 0:1/0 2¶|
star rule=halfhex addr=0:0/0 vertex=2 |  | 0 0 0 0,0,0,0 0:0/0 2¶0 2 3,0,0,0 0:1/0 2¶0 3 1,2,0,0 0:2/0 3¶|
star rule=chair addr=0: vertex=8 |  | 15 |15 NoVertex 8 8¶
star rule=p3 addr=0:0/0 vertex=255 |  | 15 |15 NoVertex 255 3¶
star rule=chair addr=0:4/0 vertex=8 |  | 4 |4 BadAddress WrongChild 0¶
star |  | 2 |2 BadWords 1¶
star rule=chair addr=0: |  | 2 |2 BadWords 3¶
star rule=chair vertex=0 |  | 2 |2 BadWords 3¶
star rule=chair addr=0: vertex=256 |  | 2 |2 BadWords 3¶
star rule=chair addr=0: vertex=00 |  | 2 |2 BadWords 3¶
star rule=chair addr=0: vertex=-1 |  | 2 |2 BadWords 3¶
star rule=chair addr=0: edge=0 |  | 2 |2 BadWords 3¶
star rule=chair addr=0: vertex=0 grow=1 |  | 2 |2 BadWords 4¶
neighbour rule=chair addr=0: vertex=0 |  | 2 |2 BadWords 3¶
# addresses of depth 64 and about
place rule=chair addr=0:«0/0,×64»0/0 |  | 4 |4 BadAddress TooDeep¶
place rule=chair addr=0:«0/0,×63»0/0 |  | 0 0 0 0,0,0,0¶|
place rule=chair addr=0:«2/0,×22»2/0 |  | 0 0 3 13421772,6710888,0,0¶|
place rule=chair addr=0:«2/0,×39»2/0 |  | 6 |6 CoordLimit 26843544,13421772,0,0¶
neighbour rule=chair addr=0:«0/0,×63»0/0 edge=0 |  | 0 0:1/0«,0/0×63» 3¶|
neighbour rule=chair addr=0:«0/0,×63»1/0 edge=4 |  | 0 0:«1/0,×63»0/0 7¶|
neighbour rule=chair addr=0:«0/0,×63»0/0 edge=4 |  | 8 |8 Outside 4 0¶
walk rule=chair addr=0:«0/0,×63»0/0 path=4 |  | 5 |5 DepthLimit 0:«0/0,×63»0/0 4¶
star rule=chair addr=0:«0/0,×63»0/0 vertex=4 |  | 5 |5 DepthLimit 0:«0/0,×63»0/0 3¶";
